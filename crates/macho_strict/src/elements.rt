//! The elements of an image: the parts of it that its structures describe. (`mach-o/loader.h`)

ghost use Rattle.std.specs.Prelude.{◌≡◌};
ghost use Rattle.macho_fields.specs.Bytes.{bytes_of};
ghost use Rattle.macho_fields.specs.LoadCommands.{structure_of};
ghost use Rattle.macho_image.specs.Command.{command_of};
ghost use Rattle.macho_image.specs.Opened.{IsCommandOf};
ghost use Rattle.macho_strict.specs.Elements.{contents as contents_of, relocations as relocations_of};
ghost use Rattle.macho_strict.specs.Elements.{command_elements, described_tables, headers as headers_of};
ghost use Rattle.macho_strict.specs.ElementWalk.{tables_left};

use macho_fields::header::loader::{LC_ENCRYPTION_INFO_64, LINKEDIT_DATA_COMMAND_SIZE};
use macho_fields::header::reloc::RELOCATION_INFO_SIZE;
use macho_fields::{Bytes, Span, Structure, TableFields, structure_of, unlisted_tables};
use macho_image::{Command, Commands, Image, Section, Sections};
use std::marker::Model;

/// A part of an image that a structure describes.
#[derive(Clone, Copy)]
pub struct Element {
    /// Where it is described, as an offset in the image: 0 for the header and the commands, otherwise the
    /// `section_64` or the load command.
    pub described: u64,
    /// Its bytes, or none.
    pub span: Span,
}

// The header and the bytes that it reserves for the load commands.
pub(crate) fn headers(image: &Image) -> Element
    ensures { result ≡ headers_of image.now }
{
    Element {
        described: 0,
        span: Span {
            start: 0,
            len: image.commands_end(),
        },
    }
}

// The bytes of a section in the image, which a zero-fill section does not have.
pub(crate) fn contents(section: &Section) -> Element
    ensures { result ≡ contents_of section.now.image section.now.place }
{
    let len = if section.is_zero_fill() {
        0
    } else {
        section.size()
    };
    Element {
        described: section.place(),
        span: Span {
            start: section.offset(),
            len,
        },
    }
}

// The relocations of a section.
pub(crate) fn relocations(section: &Section) -> Element
    ensures { result ≡ relocations_of section.now.image section.now.place }
{
    Element {
        described: section.place(),
        span: Span {
            start: section.reloff(),
            len: RELOCATION_INFO_SIZE * section.nreloc(),
        },
    }
}

// The tables of a command with this `cmd`, of this size and structure, that are elements. The encrypted
// range is not an element: it covers sections.
fn described_tables(cmd: u32, size: u32, structure: Option<Structure>) -> &'static [TableFields]
    requires { structure ≡ structure_of cmd }
    ensures { result.now ≡ described_tables cmd size }
{
    if cmd == LC_ENCRYPTION_INFO_64 {
        return &[];
    }
    match structure {
        Some(structure) => structure.tables(),
        None if u64::from(size) < LINKEDIT_DATA_COMMAND_SIZE => &[],
        None => unlisted_tables(cmd),
    }
}

// The tables of a command that remain.
#[derive(Drop)]
pub(crate) struct Tables<'a> {
    image: Bytes<'a>,
    command: u64,
    fields: &'static [TableFields],
}

impl<'a> Model for Tables<'a> {
    ghost use Rattle.std.specs.Prelude.{List, All};
    ghost use Rattle.macho_fields.specs.Bytes.{bytes_of};
    ghost use Rattle.macho_strict.specs.ElementWalk.{tables_left, HoldsTable};
    ghost use Rattle.macho_strict.specs.declared.elements.Element.{Element};

    ghost Value = { List Element };

    ghost view = { λ tables. tables_left (bytes_of tables.image) tables.command tables.fields.now };

    ghost invariant = { λ tables.
        All (HoldsTable (bytes_of tables.image) tables.command) tables.fields.now };
}

impl<'a> Iterator for Tables<'a> {
    ghost use Rattle.std.specs.Iterator.{YieldsFirst, item_count};

    type Item = Element;

    ghost next_gives = { YieldsFirst (λ left. left) };

    ghost remaining = { item_count (λ left. left) };

    fn next(&mut self) -> Option<Element> {
        let (fields, rest) = self.fields.split_first()?;
        let start = fields.table_place(self.image, self.command);
        let count = fields.item_count(self.image, self.command);
        let len = count * fields.item_size;
        self.fields = rest;
        Some(Element {
            described: self.command,
            span: Span { start, len },
        })
    }
}

// What a command describes that remains.
#[derive(Drop)]
struct Described<'a> {
    // What is next: the headers, or the relocations of the section that came last.
    pending: Option<Element>,
    // The sections of the command, where it is a segment.
    sections: Option<Sections<'a>>,
    tables: Tables<'a>,
}

impl<'a> Model for Described<'a> {
    ghost use Rattle.std.specs.Prelude.{List};
    ghost use Rattle.macho_strict.specs.ElementWalk.{described_left};
    ghost use Rattle.macho_strict.specs.declared.elements.Element.{Element};

    ghost Value = { List Element };

    ghost view = { λ described.
        described_left described.pending described.sections described.tables };
}

impl<'a> Iterator for Described<'a> {
    ghost use Rattle.std.specs.Iterator.{YieldsFirst, item_count};

    type Item = Element;

    ghost next_gives = { YieldsFirst (λ left. left) };

    ghost remaining = { item_count (λ left. left) };

    fn next(&mut self) -> Option<Element> {
        if let Some(element) = self.pending.take() {
            return Some(element);
        }
        if let Some(sections) = &mut self.sections
            && let Some(section) = sections.next()
        {
            self.pending = Some(relocations(&section));
            return Some(contents(&section));
        }
        self.tables.next()
    }
}

// What a command of an image, of this structure, describes.
fn describe<'a>(image: Bytes<'a>, command: &Command, structure: Option<Structure>) -> Described<'a>
    requires structure { structure ≡ structure_of command.now.cmd }
    requires listed { IsCommandOf (bytes_of image) (command_of command.now) }
    ensures { result ≡ command_elements (bytes_of image.entry) command.now.place }
{
    let sections = match command.segment(image) {
        Some(segment) => Some(segment.sections()),
        None => None,
    };
    Described {
        pending: None,
        sections,
        tables: tables_of(image, command, structure),
    }
}

// The tables of a command of an image, of this structure, that are elements.
pub(crate) fn tables_of<'a>(
    image: Bytes<'a>,
    command: &Command,
    structure: Option<Structure>,
) -> Tables<'a>
    requires structure { structure ≡ structure_of command.now.cmd }
    requires listed { IsCommandOf (bytes_of image) (command_of command.now) }
    ensures { result ≡ tables_left (bytes_of image.entry) command.now.place
        (described_tables command.now.cmd command.now.size) }
{
    Tables {
        image,
        command: command.place,
        fields: described_tables(command.cmd, command.size, structure),
    }
}

/// The elements of an image that remain, in their order.
#[derive(Drop)]
pub struct Elements<'a> {
    image: Bytes<'a>,
    // Those of the command that is reached.
    described: Described<'a>,
    // The commands after it.
    commands: Commands<'a>,
}

impl<'a> Model for Elements<'a> {
    ghost use Rattle.std.specs.Prelude.{◌++◌, List, All};
    ghost use Rattle.macho_fields.specs.Bytes.{bytes_of};
    ghost use Rattle.macho_image.specs.Opened.{IsCommandOf};
    ghost use Rattle.macho_strict.specs.ElementWalk.{elements_left};
    ghost use Rattle.macho_strict.specs.declared.elements.Element.{Element};

    ghost Value = { List Element };

    ghost view = { λ elements.
        elements.described ++ elements_left (bytes_of elements.image) elements.commands };

    ghost invariant = { λ elements.
        All (IsCommandOf (bytes_of elements.image)) elements.commands };
}

impl<'a> Iterator for Elements<'a> {
    ghost use Rattle.std.specs.Iterator.{YieldsFirst, item_count};

    type Item = Element;

    ghost next_gives = { YieldsFirst (λ left. left) };

    ghost remaining = { item_count (λ left. left) };

    fn next(&mut self) -> Option<Element> {
        loop {
            if let Some(element) = self.described.next() {
                return Some(element);
            }
            let command = self.commands.next()?;
            self.described = describe(self.image, &command, structure_of(command.cmd));
        }
    }
}

impl<'a> Elements<'a> {
    ghost use Rattle.std.specs.Prelude.{◌≡◌};
    ghost use Rattle.macho_image.specs.Opened.{IsOpened};
    ghost use Rattle.macho_strict.specs.Elements.{elements_of};

    /// The elements of the image: the headers, and what each load command describes, in the order of
    /// the commands. They take no memory.
    pub fn of(image: &Image<'a>) -> Elements<'a>
        ensures elements { result ≡ elements_of image.now }
        ensures opened { IsOpened image.now }
    {
        let bytes = image.bytes();
        Elements {
            image: bytes,
            described: Described {
                pending: Some(headers(image)),
                sections: None,
                tables: Tables {
                    image: bytes,
                    command: 0,
                    fields: &[],
                },
            },
            commands: image.commands(),
        }
    }
}
