//! What is at the addresses of a loaded image. (`mach-o/loader.h`: `segment_command_64`)

ghost use Rattle.std.specs.Prelude.{◌≡◌, ◌<◌, ◌-◌, ◌^◌, min, length, map, All, AllPairs};
ghost use Rattle.std.specs.Prelude.{IsPermutation, IfOk, OnErr, None};
ghost use Rattle.macho_fields.specs.Layers.{NothingBreaks};
ghost use Rattle.macho_fields.specs.Rules.{BreaksImage};
ghost use Rattle.macho_spans.specs.Span.{Shares};
ghost use Rattle.macho_spans.specs.Spans.{AreSorted, IsPlaced};
ghost use Rattle.macho_rules.specs.FilePart.{file_at, FitsFile};
ghost use Rattle.macho_rules.specs.Mapped.{mapped_segments, numbered_memory};
ghost use Rattle.macho_rules.specs.Verdict.{HasMapped};

use crate::segments::mapped_count;
use crate::verdict::Verified;
use macho_fields::{Span, Spans};
use macho_image::{Image, Segment};
use std::alloc::{AllocError, Global};

/// What is at an address of a loaded image.
#[derive(Clone, Copy, Debug, PartialEq, Eq)]
pub enum Source {
    /// The byte of the slice at this offset.
    File(u64),
    /// A zero that is not a byte of the file.
    Zero,
}

/// The mapped segments of an image, which say what is at each address.
#[derive(Drop)]
pub struct Mapping {
    // The addresses of each mapped segment, with its index in `files`.
    memory: Spans,
    files: Vec<FilePart>,
    probes: u64,

    ghost indexed: { All (λ pair. pair.1 < length files.items) memory.pairs },

    ghost fits: { All FitsFile files.items },
}

// Where the bytes of a segment lie in its slice.
#[derive(Clone, Copy)]
struct FilePart {
    fileoff: u64,
    filesize: u64,
}

impl Mapping {
    ghost use Rattle.std.specs.Prelude.{◌≡◌, ◌↔◌, ℕ, None, IfOk, OnErr, IfSome, IsSome, IsSomeAnd};
    ghost use Rattle.std.specs.Prelude.{length, slice_get};
    ghost use Rattle.std.specs.Option.{option_map};
    ghost use Rattle.macho_fields.specs.Layers.{NothingBreaks};
    ghost use Rattle.macho_fields.specs.Rules.{BreaksImage};
    ghost use Rattle.macho_spans.specs.Spans.{IsProbeCount, RoseBy};
    ghost use Rattle.macho_fields.specs.Universal.{slices_of, slice_bytes, IsImage, HasImage};
    ghost use Rattle.macho_rules.specs.Mapping.{sources, segment_count, probe_count, all_probe_count};
    ghost use Rattle.macho_rules.specs.Mapped.{mapped_segments};
    ghost use Rattle.macho_rules.specs.Mapping.{GivesSources};
    ghost use Rattle.macho_rules.specs.Source.{source_of};
    ghost use Rattle.macho_rules.specs.Verdict.{HasMapped};

    /// The mapping of the image in the slice with this index, or `None` if the slice is not read,
    /// or the file does not have one. It takes memory for the mapped segments of the image alone,
    /// and none without any.
    pub fn of(alloc: Global, verified: &Verified, index: u64) -> Result<Option<Mapping>, AllocError>
        ensures is_image { IfOk result (λ mapping.
            IsSome mapping ↔ HasImage verified.now index) }
        ensures sources { IfOk result (λ mapping. IfSome mapping (λ mapping.
            IsSomeAnd (slice_get (slices_of verified.now) index) (λ slice.
            GivesSources (slice_bytes verified.now slice) (sources mapping)))) }
        ensures segments { IfOk result (λ mapping. IfSome mapping (λ mapping.
            IsSomeAnd (slice_get (slices_of verified.now) index) (λ slice.
            segment_count mapping ≡ length (mapped_segments (slice_bytes verified.now slice))))) }
        ensures probes { IfOk result (λ mapping. IfSome mapping (λ mapping.
            probe_count mapping ≡ 0)) }
        ensures memory { OnErr result (IsSomeAnd (slice_get (slices_of verified.now) index)
            (λ slice. IsImage (slice_bytes verified.now slice)
            × HasMapped (slice_bytes verified.now slice))) }
    {
        let Some(image) = verified.image(index) else {
            return Ok(None);
        };
        let mapping = Mapping::of_image(alloc, &image)?;
        Ok(Some(mapping))
    }

    /// The mapping of an image that breaks no rule, so that no two of its segments share an
    /// address. It takes memory for the mapped segments alone, and none without any.
    pub fn of_image(alloc: Global, image: &Image) -> Result<Mapping, AllocError>
        requires { NothingBreaks (BreaksImage image.now None) }
        ensures sources { IfOk result (λ mapping. GivesSources image.now (sources mapping)) }
        ensures segments { IfOk result (λ mapping.
            segment_count mapping ≡ length (mapped_segments image.now)) }
        ensures probes { IfOk result (λ mapping. probe_count mapping ≡ 0) }
        ensures memory { OnErr result (HasMapped image.now) }
    {
        // No file part passes the image, so the end of each is below 2^64.
        prove!(image.bytes().len() <= u64::MAX);
        let count = mapped_count(image);
        let memory = mapped_spans(alloc, image, count)?;
        let files = file_parts(alloc, image, count)?;
        Ok(Mapping {
            memory,
            files,
            probes: 0,
        })
    }

    /// What is at the address, or `None` if no segment supplies it.
    pub fn source(&mut self, addr: u64) -> Option<Source>
        ensures source { option_map source_of result ≡ sources self.old addr }
        ensures same { (address : ℕ) → sources self.new address ≡ sources self.old address }
        ensures segments { segment_count self.new ≡ segment_count self.old }
        ensures counted { RoseBy (all_probe_count self.old) (probe_count self.new)
            (all_probe_count self.new) }
        ensures probes { IsProbeCount (segment_count self.old) (probe_count self.new) }
    {
        let found = self.memory.find(addr);
        self.probes = self.memory.probes();
        let (memory, index) = found?;
        let file = self.files[index as usize];
        Some(file.source(addr - memory.start))
    }

    /// How many probes the last call of [`Mapping::source`] made, 0 before any. A probe is one
    /// comparison of the first address of a segment with the address, as of [`Spans::probes`].
    pub fn probes(&self) -> u64
        ensures { result ≡ probe_count self.now }
    {
        self.probes
    }
}

// The addresses of the `count` mapped segments of an image that breaks no rule, each with its index
// among them. The sorted list is freed.
fn mapped_spans(alloc: Global, image: &Image, count: usize) -> Result<Spans, AllocError>
    requires unbroken { NothingBreaks (BreaksImage image.now None) }
    requires count { count ≡ min (length (mapped_segments image.now)) (2 ^ 64 - 1) }
    ensures held { IfOk result (λ spans. IsPermutation
        (numbered_memory image.now 0 (mapped_segments image.now)) spans.pairs) }
    ensures sorted { IfOk result (λ spans. AreSorted spans.pairs) }
    ensures memory { OnErr result (HasMapped image.now) }
{
    let mut pairs = numbered_spans(alloc, image, count)?;
    pairs.sort_unstable_by_key(|pair| pair.0.start);
    spans_of(alloc, &pairs)
}

// The addresses of the `count` mapped segments, each with its index, in the order of the commands. One
// takes 24 bytes.
fn numbered_spans(
    alloc: Global,
    image: &Image,
    count: usize,
) -> Result<Vec<(Span, u64)>, AllocError>
    requires { count ≡ min (length (mapped_segments image.now)) (2 ^ 64 - 1) }
    ensures pairs { IfOk result (λ pairs.
        pairs.items ≡ numbered_memory image.now 0 (mapped_segments image.now)) }
    ensures memory { OnErr result (HasMapped image.now) }
{
    let mut pairs = Vec::with_capacity(alloc, count)?;
    for segment in image.mapped_segments() {
        let index = pairs.len() as u64;
        pairs.push((segment.memory(), index))?;
    }
    Ok(pairs)
}

// Where the bytes of each of the `count` mapped segments lie, in the order of the commands. One takes
// 16 bytes.
fn file_parts(alloc: Global, image: &Image, count: usize) -> Result<Vec<FilePart>, AllocError>
    requires { count ≡ min (length (mapped_segments image.now)) (2 ^ 64 - 1) }
    ensures files { IfOk result (λ files.
        files.items ≡ map (file_at image.now) (mapped_segments image.now)) }
    ensures memory { OnErr result (HasMapped image.now) }
{
    let mut files = Vec::with_capacity(alloc, count)?;
    for segment in image.mapped_segments() {
        files.push(FilePart::new(&segment))?;
    }
    Ok(files)
}

// The spans with their tags. If they are in ascending order, no insertion moves a pair.
fn spans_of(alloc: Global, pairs: &[(Span, u64)]) -> Result<Spans, AllocError>
    requires placed { All (λ pair. IsPlaced pair.0) pairs.now }
    requires apart { AllPairs (λ pair later. ¬ Shares pair.0 later.0) pairs.now }
    ensures held { IfOk result (λ spans. IsPermutation pairs.now spans.pairs) }
    ensures sorted { IfOk result (λ spans. AreSorted spans.pairs) }
    ensures memory { OnErr result (0 < length pairs.now) }
{
    let mut spans = Spans::with_capacity(alloc, pairs.len())?;
    for &(span, tag) in pairs {
        spans.try_insert(span, tag)?;
    }
    Ok(spans)
}

impl FilePart {
    ghost use Rattle.std.specs.Prelude.{◌≡◌};
    ghost use Rattle.macho_rules.specs.Source.{source_of};
    ghost use Rattle.macho_rules.specs.Mapping.{source_past};
    ghost use Rattle.macho_rules.specs.FilePart.{file_at, FitsFile};

    fn new(segment: &Segment) -> FilePart
        ensures { result ≡ file_at segment.now.image segment.now.place }
    {
        FilePart {
            fileoff: segment.fileoff(),
            filesize: segment.filesize(),
        }
    }

    // What the segment has at this distance from its first address.
    fn source(self, past: u64) -> Source
        requires { FitsFile self }
        ensures { source_of result ≡ source_past past self }
    {
        if past < self.filesize {
            Source::File(self.fileoff + past)
        } else {
            Source::Zero
        }
    }
}
