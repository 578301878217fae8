//! The names of binds, so that those with the same bytes are in one place.

ghost use Rattle.std.specs.Prelude.{◌≡◌, ◌≤◌, ◌<◌, ◌↔◌, length, IsTrue, Some, IfOk, OnErr, IfSome};
ghost use Rattle.macho_fields.specs.Bytes.{bytes_of};
ghost use Rattle.macho_fields.specs.Field.{part};
ghost use Rattle.macho_spans.specs.Span.{end_of};
ghost use Rattle.macho_alike.specs.BindLists.{AreInside};
ghost use Rattle.macho_alike.specs.BindNames.{AreNamesOf, AreRenamed, IsShared};

use crate::binds::Bind;
use macho_fields::{Bytes, Span};
use macho_image::Image;
use std::alloc::{AllocError, Global};

// Gives binds whose names have the same bytes one place of the name, so that names of binds that agree need not be
// compared. It takes memory for each name, and time in the order of the bytes of all names, times log n.
pub(crate) fn share_names(
    alloc: Global,
    image: &Image,
    binds: &mut [Bind],
) -> Result<(), AllocError>
    requires { AreInside (length image.now) binds.old }
    ensures renamed { IfOk result (λ _. AreRenamed image.now binds.old binds.new) }
    ensures memory { OnErr result (0 < length binds.old) }
{
    let bytes = image.bytes();
    let names = sorted_names(alloc, bytes, binds)?;
    rename(bytes, &names, binds);
    Ok(())
}

// The names of the binds, by their bytes. One that follows itself is listed once.
fn sorted_names(alloc: Global, bytes: Bytes, binds: &[Bind]) -> Result<Vec<Span>, AllocError>
    ensures names { IfOk result (λ names. AreNamesOf binds.now names.items) }
    ensures memory { OnErr result (0 < length binds.now) }
{
    let mut names = names_of(alloc, binds)?;
    names.sort_unstable_by_key(|name| bytes.part(*name));
    Ok(names)
}

// The same, in the order of the binds.
fn names_of(alloc: Global, binds: &[Bind]) -> Result<Vec<Span>, AllocError>
    ensures names { IfOk result (λ names. AreNamesOf binds.now names.items) }
    ensures memory { OnErr result (0 < length binds.now) }
{
    let mut names = Vec::new(alloc);
    let mut last = None;
    for bind in binds {
        if !is_last(last, bind.name) {
            names.push(bind.name)?;
            last = Some(bind.name);
        }
    }
    Ok(names)
}

// Whether the name is the last one.
fn is_last(last: Option<Span>, name: Span) -> bool
    ensures { IsTrue result ↔ (last ≡ Some name) }
{
    last == Some(name)
}

// A name, and where its bytes are read.
#[derive(Clone, Copy)]
struct Place {
    name: Span,
    shared: Span,
}

// Gives each bind the place of its name among the names, which are sorted by their bytes.
fn rename(bytes: Bytes, names: &[Span], binds: &mut [Bind])
    requires { AreInside (length (bytes_of bytes)) binds.old }
    ensures { AreRenamed (bytes_of bytes.entry) binds.old binds.new }
{
    let mut last = None;
    for index in 0..binds.len() {
        let name = binds[index].name;
        let shared = place_after(bytes, names, name, last);
        binds[index].name = shared;
        last = Some(Place { name, shared });
    }
}

// Where the bytes of the name are read, if this is known of the last one.
fn place_after(bytes: Bytes, names: &[Span], name: Span, last: Option<Place>) -> Span
    requires name { end_of name ≤ length (bytes_of bytes) }
    requires last { IfSome last (λ last. IsShared (bytes_of bytes) last.name last.shared) }
    ensures { IsShared (bytes_of bytes.entry) name result }
{
    match last {
        Some(last) if last.name == name => last.shared,
        _ => first_place(bytes, names, name),
    }
}

// The first of the names that has the bytes of the name.
fn first_place(bytes: Bytes, names: &[Span], name: Span) -> Span
    requires { end_of name ≤ length (bytes_of bytes) }
    ensures { IsShared (bytes_of bytes.entry) name result }
{
    let text = bytes.read_part(name);
    let first = names.partition_point(|other| bytes.part(*other) < Some(text));
    match names.get(first) {
        Some(found) if has_text(bytes, *found, text) => *found,
        _ => name,
    }
}

// Whether the bytes of the name are the text.
fn has_text(bytes: Bytes, name: Span, text: &[u8]) -> bool
    ensures { IsTrue result ↔ (end_of name ≤ length (bytes_of bytes.entry))
        × (part name.start name.len (bytes_of bytes.entry) ≡ text.now) }
{
    match bytes.part(name) {
        Some(other) => other == text,
        None => false,
    }
}
