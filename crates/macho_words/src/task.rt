//! What the words ask of a program, once they have been read.

/// What the words ask of a program.
#[derive(Drop)]
pub enum Task<J> {
    /// To show this text of its own, such as its help.
    Show(&'static str),
    /// To answer a question about the file with this name.
    Ask { file: String, question: Question<J> },
}

/// A question about a file.
#[derive(Drop)]
pub enum Question<J> {
    /// Does this judge accept it, and what is its layout?
    Verdict(J),
    /// What is at this address of the image in this slice?
    Address { slice: u64, address: u64 },
}
