//! Where in a table the next rows are read.

/// Where in a table the next row is: all zeros before the first. (`struct kesvuot_cursor`) A table uses
/// the numbers that it needs. A caller may pass any numbers: no export trusts them.
#[repr(C)]
#[derive(Clone, Copy)]
pub struct KesvuotCursor {
    /// Where the next load command begins in the image. The first one is past the header.
    pub place: u64,
    /// How many load commands are before it.
    pub commands: u64,
    /// Where the segment begins that the last section is in, or 0.
    pub segment: u64,
    /// How many items were read: symbols, indirect entries, or sections of that segment. Of the table of
    /// segments, how many sections the segments before the next one have.
    pub items: u64,
}

/// The cursor of the first row of a table.
pub const START: KesvuotCursor = KesvuotCursor {
    place: 0,
    commands: 0,
    segment: 0,
    items: 0,
};
