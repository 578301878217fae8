//! The rules of all profiles, in one list, and where one is broken. A place is an offset in bytes.

ghost use Rattle.std.specs.Prelude.{◌≡◌, ◌≢◌, ◌++◌, ◌∷◌, [], ℕ, List, IfNone, IfOk, IfSome, find, ◌==◌, IsErrAnd, IsOk, MatchOption, Some};
ghost use Rattle.std.specs.Fmt.{styled_text};
ghost use Rattle.std.specs.Fmt.InlineText.{inline_text};
ghost use Rattle.macho_fields.specs.RuleList.{name_of, rule_number, profile_of, text_of};
ghost use Rattle.macho_fields.specs.RuleList.{profile_name, profile_named, profile_number, profile_numbered};

use std::fmt;
use std::fmt::{InlineText, Write};

/// A set of rules that one verdict judges. Each profile is judged where a file breaks no rule of the
/// profiles before it. The number of a profile never changes, and 0 is the number of none.
#[derive(Clone, Copy)]
pub enum Profile {
    // registry: profiles
    /// A loader that follows the headers and checks no bounds reads only bytes of the slice.
    Layout = 1,
    /// Every nonzero byte is accounted for, and no byte belongs to two elements, such as the headers, a section or a
    /// table.
    Strict = 2,
    /// The rules judge where the linked data of an image lies; what the opcodes of `LC_DYLD_INFO` and
    /// `LC_DYLD_INFO_ONLY`, the table of `LC_DYLD_CHAINED_FIXUPS` and the chains of pointers in the pages ask a dynamic
    /// loader for; what the image exports; where functions start and data is in code; how a code signature is built;
    /// what symbols, stubs and relocations refer to; where threads and initializers begin; and what all other commands
    /// of `loader.h` hold.
    Linked = 3,
    /// Readers that choose slices, segments, sections, load commands and entry points in the ways that the page of the
    /// rules lists choose the same ones, and a kernel that maps whole pages shows the bytes that the headers describe.
    /// They find one meaning of a name that the image defines, one bind of a location, one library of an undefined
    /// symbol, and one identity in a signature.
    Unambiguous = 4,
    /// Each image has a code signature; each code directory has the hashes of all bytes before the signature and of the
    /// blobs in special slots; no byte of the signature can be executed; and each nonzero byte from the signature on is
    /// in the signature's header, its index or a blob. The profile does not say who signed, and it reads nothing
    /// outside of the file.
    Sealed = 5,
    // registry: end
}

impl Profile {
    /// All profiles, in the order of judgment.
    pub const ALL: &'static [Profile] = &[
        // registry: list of profiles
        Profile::Layout,
        Profile::Strict,
        Profile::Linked,
        Profile::Unambiguous,
        Profile::Sealed,
        // registry: end
    ];

    /// The name of the profile, in lower case.
    pub fn name(self) -> &'static str
        ensures { result.now ≡ profile_name self }
    {
        without_zero(self.name_with_zero())
    }

    /// The name of the profile and a zero byte, as C reads it.
    pub const fn name_with_zero(self) -> &'static str
        ensures { result.now ≡ profile_name self ++ 0 ∷ [] }
    {
        match self {
            // registry: names of profiles
            Profile::Layout => "layout\0",
            Profile::Strict => "strict\0",
            Profile::Linked => "linked\0",
            Profile::Unambiguous => "unambiguous\0",
            Profile::Sealed => "sealed\0",
            // registry: end
        }
    }

    /// The number of the profile, which never changes.
    pub const fn number(self) -> u32
        ensures { result ≡ profile_number self }
    {
        self as u32
    }

    /// The profile with this number, or `None` where no profile has it.
    pub fn with_number(number: u32) -> Option<Profile>
        ensures { result ≡ profile_numbered number }
    {
        Profile::ALL
            .iter()
            .copied()
            .find(|profile| profile.number() == number)
    }

    /// The profile with this name, or `None` where no profile has it.
    pub fn with_name(name: &str) -> Option<Profile>
        ensures { result ≡ profile_named name.now }
    {
        Profile::ALL
            .iter()
            .copied()
            .find(|profile| profile.name() == name)
    }
}

/// The rules of [`Profile::Layout`] alone, as a program is asked to judge by them.
#[derive(Clone, Copy)]
pub struct LayoutRules;

/// A rule, in the order of judgment: profile after profile, and in each the rules of the file before
/// the rules of an image. A rule is broken at a place, which is an offset in bytes.
///
/// Each has a number that never changes. A rule that is added takes the next free number, wherever it
/// stands.
#[derive(Clone, Copy, PartialEq, Eq)]
pub enum Rule {
    // registry: rules
    /// The file begins with the magic number of no format that is read.
    Magic = 1,
    /// The header or the table of a universal file ends past the end of the file.
    FatTruncated = 2,
    /// A slice ends past the end of the file.
    FatSliceOutside = 3,
    /// A slice begins before the end of the table that names it.
    FatSliceInTable = 4,
    /// The offset of a slice is not a multiple of its alignment.
    FatAlign = 5,
    /// A slice has a byte in common with an earlier one.
    FatOverlap = 6,
    /// A slice has the architecture of an earlier one.
    FatDuplicate = 7,
    /// A slice begins with the magic number of no image.
    FatSliceMagic = 8,
    /// A universal file has no 64-bit little-endian slice.
    FatEmpty = 9,
    /// The bytes of an image end within its header.
    HeaderTruncated = 10,
    /// The header of a slice names another architecture than the table.
    ArchMismatch = 11,
    /// The image is of a kind that is not read.
    FileType = 12,
    /// The load commands end past the end of the image.
    CommandsOutside = 13,
    /// A load command is missing or cut, or its size is impossible.
    CommandWalk = 14,
    /// A load command is too small for its own fields.
    CommandShort = 15,
    /// A kind of load command that an image may have only once is repeated.
    CommandRepeated = 16,
    /// A library has no name of its own, or an executable or a bundle has one.
    DylibId = 17,
    /// A name begins within the fields of its command, or does not end in the command.
    Name = 18,
    /// The addresses of a segment end past 2^64.
    SegmentAddress = 19,
    /// A segment has more bytes in the file than in memory.
    SegmentSize = 20,
    /// The bytes of a segment end past the end of the image.
    SegmentFile = 21,
    /// A segment has an address in common with an earlier one.
    SegmentOverlap = 22,
    /// A section has an address outside its segment.
    SectionAddress = 23,
    /// The bytes of a section are not where its segment puts them.
    SectionFile = 24,
    /// The relocations of a section end past the end of the image.
    SectionRelocs = 25,
    /// A table that a load command names ends past the end of the image.
    TableRange = 26,
    /// A group of symbols ends past the end of the symbol table.
    SymbolGroup = 27,
    /// The name of a symbol does not end within the string table.
    SymbolName = 28,
    /// A symbol is defined in a section that the image does not have.
    SymbolSection = 29,
    /// An indirect entry names no symbol of the table.
    IndirectIndex = 30,
    /// The entry point that `LC_MAIN` names is at no executable byte of the file.
    Entry = 31,
    /// A byte of a universal file that is not zero lies in no slice, after the table.
    FatStrayByte = 32,
    /// The last load command does not end where the header says that the commands end.
    CommandsEnd = 33,
    /// No segment has the header and all load commands.
    HeaderSegment = 34,
    /// A segment has a byte of the file in common with an earlier one.
    SegmentFileOverlap = 35,
    /// A part of the image that a structure describes has a byte in common with an earlier one.
    ElementOverlap = 36,
    /// A byte of an image that is not zero lies in no segment.
    StrayByte = 37,
    /// What is encrypted is not bytes of one segment, past the header and the load commands.
    EncryptedRange = 38,
    /// A byte of a load command that is not zero lies past its fields, its records and its name.
    CommandSlack = 39,
    /// A byte of a segment that is neither zero nor padding of code lies in no part that a structure describes.
    UnclaimedByte = 40,
    /// A command for linked data is of a kind of an earlier one.
    TableRepeated = 41,
    /// A command has variants of functions, by which loaders write, and which no rule reads.
    FunctionVariants = 42,
    /// Linked data, symbols, strings or indirect symbols are not where a loader finds them, or can change in memory.
    TableHome = 43,
    /// The header cannot be read in memory, or can be written, or is not where loaders take the segment named `__TEXT`
    /// to be.
    HeaderHome = 44,
    /// An opcode of the rebases is not known, or its operands do not end.
    RebaseOpcode = 45,
    /// A rebase is not in the bytes of a segment that can be written.
    RebaseSlot = 46,
    /// There are more rebases than pointers that can be written.
    RebaseTotal = 47,
    /// An opcode of the binds is not known, or its operands do not end.
    BindOpcode = 48,
    /// A bind is to a library that the image does not load.
    BindLibrary = 49,
    /// A bind has no name.
    BindSymbol = 50,
    /// A bind is not in the bytes of a segment that can be written.
    BindSlot = 51,
    /// A stream has more binds than there are pointers that can be written.
    BindTotal = 52,
    /// The names that the binds of a stream look up have more bytes than the stream.
    BindNames = 53,
    /// The header of the chained fixups is not there, is cut, or is of a version or a format that is not known.
    ChainHeader = 54,
    /// The chains of a segment do not begin as the format says, or where a loader cannot write.
    ChainStarts = 55,
    /// The imports of the chained fixups end past their table, or the name of one does not end in it.
    ChainImports = 56,
    /// The names of the imports have more bytes than the table.
    ChainTotal = 57,
    /// An import is from a library that the image does not load.
    ChainLibrary = 58,
    /// A pointer of a chain does not end in its page and in the file bytes of its segment, or the next one begins in
    /// it, or a kernel decrypts the segment.
    ChainSlot = 59,
    /// A pointer of a chain binds an import that is not there.
    ChainBind = 60,
    /// A node of the export trie does not end in it.
    ExportNode = 64,
    /// The nodes of the export trie, each as often as it is met, have more bytes than it.
    ExportTotal = 65,
    /// What a node of the export trie says of a symbol does not end where it should, or is of no known kind.
    ExportTerminal = 66,
    /// An export is of a library that the image does not load.
    ExportLibrary = 67,
    /// An export has an address in no segment.
    ExportAddress = 68,
    /// A number of the function starts does not end, or a byte after the last one is not 0.
    FunctionNumber = 61,
    /// A function does not start in the file bytes of a mapped segment.
    FunctionStart = 62,
    /// An entry of the data in code is cut, of a kind that is not known, or not in the file bytes of an executable
    /// segment.
    DataInCode = 63,
    /// An initializer that a section names by an offset is at no executable byte of the file, or the offset is cut.
    InitOffset = 84,
    /// A blob of the code signature is not where it can be read, or does not begin as its magic number says.
    SignatureBlob = 69,
    /// A code directory is missing, cut, or of no known form, or something that it names is not inside of it.
    SignatureDirectory = 70,
    /// A code directory does not cover the bytes up to the signature.
    SignatureWhole = 71,
    /// A symbol is of a library that the image does not load.
    SymbolLibrary = 72,
    /// A symbol that a section defines has an address in no segment.
    SymbolValue = 73,
    /// The name that an indirect symbol stands in for does not end within the string table.
    SymbolIndirect = 74,
    /// The stubs or symbol pointers of a section have no size, do not fill it, or pass the end of the indirect symbol
    /// table.
    IndirectRange = 82,
    /// There is a table that only older loaders follow: of contents, modules or references, or of relocations beside
    /// other fixups.
    ObsoleteTable = 83,
    /// A relocation is of no symbol or section of the image, or of no pointer that can be written.
    Relocation = 75,
    /// The state of a thread is cut or not known, or its entry point is at no executable byte of the file.
    Thread = 76,
    /// What a load command holds is not inside of it or of the image, or the command has no place in it.
    CommandContent = 77,
    /// A universal file has so many slices that readers take it for a Java class.
    FatCount = 86,
    /// A slice is not for the processor that its entry names, or its processor is judged and the slice is not read.
    FatHeader = 87,
    /// A slice does not begin at a page, or another slice begins in its last page.
    FatPage = 88,
    /// A load command is of a kind that no rule knows.
    CommandKnown = 89,
    /// A load command is of the kind, or for the platform, of an earlier one, and readers take only one of the two.
    CommandOnce = 90,
    /// A segment has no name, the name of an earlier one or bytes past its name, or the base is not at the segment
    /// named `__TEXT`.
    SegmentName = 91,
    /// A segment does not begin at a page, in memory or in the file.
    SegmentPage = 92,
    /// The initial protection of a segment has a bit that its maximum protection lacks, or an unknown one.
    SegmentProtection = 93,
    /// Bytes of the image are encrypted, so other ones run.
    BytesEncrypted = 94,
    /// A number of a segment or of a library means another one to readers that skip some.
    NumberShift = 95,
    /// A section has the names of an earlier one, or bytes past its name, or another segment name than its segment.
    SectionName = 96,
    /// A section has an address of an earlier one, or hides a byte of its segment, or lies over a segment that is not
    /// its own.
    SectionAlone = 97,
    /// A second command says where the program begins, or the image is not a program, or readers find another byte
    /// there, or data.
    EntryOne = 98,
    /// Two binds of one location differ, or binds of two locations share bytes.
    BindOnce = 99,
    /// A label of the export trie is empty, or another label of its node begins with it.
    ExportEdge = 100,
    /// The groups of the symbol table say another kind of a symbol than its type, or a symbol without a name shows the
    /// first string.
    SymbolKind = 101,
    /// The names of the external symbols have more bytes than the image.
    SymbolTotal = 102,
    /// A symbol says something else of a name than an earlier symbol, or than the export trie.
    ExportSymbol = 103,
    /// A bound pointer has an indirect entry with another name than its bind.
    IndirectName = 104,
    /// A bind takes the name of an undefined symbol from another library than the symbol says.
    ImportLibrary = 105,
    /// A blob of the code signature is in the slot of another one, or its magic number is not the one of its slot.
    SignatureSlot = 106,
    /// A code directory says another identity than the first one, or readers find two things in it.
    DirectoryAgree = 107,
    /// An image has no code signature with a code directory.
    SignatureMissing = 78,
    /// A byte of the code signature lies in memory that may be executed.
    SignatureExecutable = 85,
    /// A code directory is in the slot of an earlier one.
    DirectoryRepeated = 79,
    /// A byte of the code signature that is not zero lies in no part of it.
    SignatureSlack = 80,
    /// The hash of a page or of a blob is not the one in a code directory.
    SignatureHash = 81,
    // registry: end
}

impl Rule {
    /// All rules, in the order of judgment.
    pub const ALL: &'static [Rule] = &[
        // registry: list of rules
        Rule::Magic,
        Rule::FatTruncated,
        Rule::FatSliceOutside,
        Rule::FatSliceInTable,
        Rule::FatAlign,
        Rule::FatOverlap,
        Rule::FatDuplicate,
        Rule::FatSliceMagic,
        Rule::FatEmpty,
        Rule::HeaderTruncated,
        Rule::ArchMismatch,
        Rule::FileType,
        Rule::CommandsOutside,
        Rule::CommandWalk,
        Rule::CommandShort,
        Rule::CommandRepeated,
        Rule::DylibId,
        Rule::Name,
        Rule::SegmentAddress,
        Rule::SegmentSize,
        Rule::SegmentFile,
        Rule::SegmentOverlap,
        Rule::SectionAddress,
        Rule::SectionFile,
        Rule::SectionRelocs,
        Rule::TableRange,
        Rule::SymbolGroup,
        Rule::SymbolName,
        Rule::SymbolSection,
        Rule::IndirectIndex,
        Rule::Entry,
        Rule::FatStrayByte,
        Rule::CommandsEnd,
        Rule::HeaderSegment,
        Rule::SegmentFileOverlap,
        Rule::ElementOverlap,
        Rule::StrayByte,
        Rule::EncryptedRange,
        Rule::CommandSlack,
        Rule::UnclaimedByte,
        Rule::TableRepeated,
        Rule::FunctionVariants,
        Rule::TableHome,
        Rule::HeaderHome,
        Rule::RebaseOpcode,
        Rule::RebaseSlot,
        Rule::RebaseTotal,
        Rule::BindOpcode,
        Rule::BindLibrary,
        Rule::BindSymbol,
        Rule::BindSlot,
        Rule::BindTotal,
        Rule::BindNames,
        Rule::ChainHeader,
        Rule::ChainStarts,
        Rule::ChainImports,
        Rule::ChainTotal,
        Rule::ChainLibrary,
        Rule::ChainSlot,
        Rule::ChainBind,
        Rule::ExportNode,
        Rule::ExportTotal,
        Rule::ExportTerminal,
        Rule::ExportLibrary,
        Rule::ExportAddress,
        Rule::FunctionNumber,
        Rule::FunctionStart,
        Rule::DataInCode,
        Rule::InitOffset,
        Rule::SignatureBlob,
        Rule::SignatureDirectory,
        Rule::SignatureWhole,
        Rule::SymbolLibrary,
        Rule::SymbolValue,
        Rule::SymbolIndirect,
        Rule::IndirectRange,
        Rule::ObsoleteTable,
        Rule::Relocation,
        Rule::Thread,
        Rule::CommandContent,
        Rule::FatCount,
        Rule::FatHeader,
        Rule::FatPage,
        Rule::CommandKnown,
        Rule::CommandOnce,
        Rule::SegmentName,
        Rule::SegmentPage,
        Rule::SegmentProtection,
        Rule::BytesEncrypted,
        Rule::NumberShift,
        Rule::SectionName,
        Rule::SectionAlone,
        Rule::EntryOne,
        Rule::BindOnce,
        Rule::ExportEdge,
        Rule::SymbolKind,
        Rule::SymbolTotal,
        Rule::ExportSymbol,
        Rule::IndirectName,
        Rule::ImportLibrary,
        Rule::SignatureSlot,
        Rule::DirectoryAgree,
        Rule::SignatureMissing,
        Rule::SignatureExecutable,
        Rule::DirectoryRepeated,
        Rule::SignatureSlack,
        Rule::SignatureHash,
        // registry: end
    ];

    /// The name of the rule in reports, in lower case.
    pub fn name(self) -> &'static str
        ensures { result.now ≡ name_of self }
    {
        without_zero(self.name_with_zero())
    }

    /// The name of the rule and a zero byte, as C reads it.
    pub const fn name_with_zero(self) -> &'static str
        ensures { result.now ≡ name_of self ++ 0 ∷ [] }
    {
        match self {
            // registry: names of rules
            Rule::Magic => "magic\0",
            Rule::FatTruncated => "fat-truncated\0",
            Rule::FatSliceOutside => "fat-slice-outside\0",
            Rule::FatSliceInTable => "fat-slice-in-table\0",
            Rule::FatAlign => "fat-align\0",
            Rule::FatOverlap => "fat-overlap\0",
            Rule::FatDuplicate => "fat-duplicate\0",
            Rule::FatSliceMagic => "fat-slice-magic\0",
            Rule::FatEmpty => "fat-empty\0",
            Rule::HeaderTruncated => "header-truncated\0",
            Rule::ArchMismatch => "arch-mismatch\0",
            Rule::FileType => "file-type\0",
            Rule::CommandsOutside => "commands-outside\0",
            Rule::CommandWalk => "command-walk\0",
            Rule::CommandShort => "command-short\0",
            Rule::CommandRepeated => "command-repeated\0",
            Rule::DylibId => "dylib-id\0",
            Rule::Name => "name\0",
            Rule::SegmentAddress => "segment-address\0",
            Rule::SegmentSize => "segment-size\0",
            Rule::SegmentFile => "segment-file\0",
            Rule::SegmentOverlap => "segment-overlap\0",
            Rule::SectionAddress => "section-address\0",
            Rule::SectionFile => "section-file\0",
            Rule::SectionRelocs => "section-relocs\0",
            Rule::TableRange => "table-range\0",
            Rule::SymbolGroup => "symbol-group\0",
            Rule::SymbolName => "symbol-name\0",
            Rule::SymbolSection => "symbol-section\0",
            Rule::IndirectIndex => "indirect-index\0",
            Rule::Entry => "entry\0",
            Rule::FatStrayByte => "fat-stray-byte\0",
            Rule::CommandsEnd => "commands-end\0",
            Rule::HeaderSegment => "header-segment\0",
            Rule::SegmentFileOverlap => "segment-file-overlap\0",
            Rule::ElementOverlap => "element-overlap\0",
            Rule::StrayByte => "stray-byte\0",
            Rule::EncryptedRange => "encrypted-range\0",
            Rule::CommandSlack => "command-slack\0",
            Rule::UnclaimedByte => "unclaimed-byte\0",
            Rule::TableRepeated => "table-repeated\0",
            Rule::FunctionVariants => "function-variants\0",
            Rule::TableHome => "table-home\0",
            Rule::HeaderHome => "header-home\0",
            Rule::RebaseOpcode => "rebase-opcode\0",
            Rule::RebaseSlot => "rebase-slot\0",
            Rule::RebaseTotal => "rebase-total\0",
            Rule::BindOpcode => "bind-opcode\0",
            Rule::BindLibrary => "bind-library\0",
            Rule::BindSymbol => "bind-symbol\0",
            Rule::BindSlot => "bind-slot\0",
            Rule::BindTotal => "bind-total\0",
            Rule::BindNames => "bind-names\0",
            Rule::ChainHeader => "chain-header\0",
            Rule::ChainStarts => "chain-starts\0",
            Rule::ChainImports => "chain-imports\0",
            Rule::ChainTotal => "chain-total\0",
            Rule::ChainLibrary => "chain-library\0",
            Rule::ChainSlot => "chain-slot\0",
            Rule::ChainBind => "chain-bind\0",
            Rule::ExportNode => "export-node\0",
            Rule::ExportTotal => "export-total\0",
            Rule::ExportTerminal => "export-terminal\0",
            Rule::ExportLibrary => "export-library\0",
            Rule::ExportAddress => "export-address\0",
            Rule::FunctionNumber => "function-number\0",
            Rule::FunctionStart => "function-start\0",
            Rule::DataInCode => "data-in-code\0",
            Rule::InitOffset => "init-offset\0",
            Rule::SignatureBlob => "signature-blob\0",
            Rule::SignatureDirectory => "signature-directory\0",
            Rule::SignatureWhole => "signature-whole\0",
            Rule::SymbolLibrary => "symbol-library\0",
            Rule::SymbolValue => "symbol-value\0",
            Rule::SymbolIndirect => "symbol-indirect\0",
            Rule::IndirectRange => "indirect-range\0",
            Rule::ObsoleteTable => "obsolete-table\0",
            Rule::Relocation => "relocation\0",
            Rule::Thread => "thread\0",
            Rule::CommandContent => "command-content\0",
            Rule::FatCount => "fat-count\0",
            Rule::FatHeader => "fat-header\0",
            Rule::FatPage => "fat-page\0",
            Rule::CommandKnown => "command-known\0",
            Rule::CommandOnce => "command-once\0",
            Rule::SegmentName => "segment-name\0",
            Rule::SegmentPage => "segment-page\0",
            Rule::SegmentProtection => "segment-protection\0",
            Rule::BytesEncrypted => "bytes-encrypted\0",
            Rule::NumberShift => "number-shift\0",
            Rule::SectionName => "section-name\0",
            Rule::SectionAlone => "section-alone\0",
            Rule::EntryOne => "entry-one\0",
            Rule::BindOnce => "bind-once\0",
            Rule::ExportEdge => "export-edge\0",
            Rule::SymbolKind => "symbol-kind\0",
            Rule::SymbolTotal => "symbol-total\0",
            Rule::ExportSymbol => "export-symbol\0",
            Rule::IndirectName => "indirect-name\0",
            Rule::ImportLibrary => "import-library\0",
            Rule::SignatureSlot => "signature-slot\0",
            Rule::DirectoryAgree => "directory-agree\0",
            Rule::SignatureMissing => "signature-missing\0",
            Rule::SignatureExecutable => "signature-executable\0",
            Rule::DirectoryRepeated => "directory-repeated\0",
            Rule::SignatureSlack => "signature-slack\0",
            Rule::SignatureHash => "signature-hash\0",
            // registry: end
        }
    }

    /// The number of the rule, which never changes.
    pub const fn number(self) -> u32
        ensures { result ≡ rule_number self }
    {
        self as u32
    }

    /// The rule with this number, or `None` where no rule has it.
    pub fn with_number(number: u32) -> Option<Rule>
        ensures some { IfSome result (λ rule. rule_number rule ≡ number) }
        ensures none { IfNone result ((rule : Rule) → rule_number rule ≢ number) }
    {
        Rule::first_numbered(number)
    }

    // The first rule of the list that has this number.
    fn first_numbered(number: u32) -> Option<Rule>
        ensures { result ≡ find (λ rule. rule_number rule == number) Self.ALL.now }
    {
        Rule::ALL
            .iter()
            .copied()
            .find(|rule| rule.number() == number)
    }

    /// The profile that the rule belongs to.
    pub const fn profile(self) -> Profile
        ensures { result ≡ profile_of self }
    {
        match self {
            // registry: profiles of rules
            Rule::Magic
            | Rule::FatTruncated
            | Rule::FatSliceOutside
            | Rule::FatSliceInTable
            | Rule::FatAlign
            | Rule::FatOverlap
            | Rule::FatDuplicate
            | Rule::FatSliceMagic
            | Rule::FatEmpty
            | Rule::HeaderTruncated
            | Rule::ArchMismatch
            | Rule::FileType
            | Rule::CommandsOutside => Profile::Layout,
            Rule::CommandWalk
            | Rule::CommandShort
            | Rule::CommandRepeated
            | Rule::DylibId
            | Rule::Name
            | Rule::SegmentAddress
            | Rule::SegmentSize
            | Rule::SegmentFile
            | Rule::SegmentOverlap
            | Rule::SectionAddress
            | Rule::SectionFile
            | Rule::SectionRelocs
            | Rule::TableRange => Profile::Layout,
            Rule::SymbolGroup
            | Rule::SymbolName
            | Rule::SymbolSection
            | Rule::IndirectIndex
            | Rule::Entry => Profile::Layout,
            Rule::FatStrayByte
            | Rule::CommandsEnd
            | Rule::HeaderSegment
            | Rule::SegmentFileOverlap
            | Rule::ElementOverlap
            | Rule::StrayByte
            | Rule::EncryptedRange
            | Rule::CommandSlack
            | Rule::UnclaimedByte => Profile::Strict,
            Rule::TableRepeated
            | Rule::FunctionVariants
            | Rule::TableHome
            | Rule::HeaderHome
            | Rule::RebaseOpcode
            | Rule::RebaseSlot
            | Rule::RebaseTotal
            | Rule::BindOpcode
            | Rule::BindLibrary
            | Rule::BindSymbol
            | Rule::BindSlot
            | Rule::BindTotal
            | Rule::BindNames => Profile::Linked,
            Rule::ChainHeader
            | Rule::ChainStarts
            | Rule::ChainImports
            | Rule::ChainTotal
            | Rule::ChainLibrary
            | Rule::ChainSlot
            | Rule::ChainBind
            | Rule::ExportNode
            | Rule::ExportTotal
            | Rule::ExportTerminal
            | Rule::ExportLibrary
            | Rule::ExportAddress
            | Rule::FunctionNumber => Profile::Linked,
            Rule::FunctionStart
            | Rule::DataInCode
            | Rule::InitOffset
            | Rule::SignatureBlob
            | Rule::SignatureDirectory
            | Rule::SignatureWhole
            | Rule::SymbolLibrary
            | Rule::SymbolValue
            | Rule::SymbolIndirect
            | Rule::IndirectRange
            | Rule::ObsoleteTable
            | Rule::Relocation
            | Rule::Thread => Profile::Linked,
            Rule::CommandContent => Profile::Linked,
            Rule::FatCount
            | Rule::FatHeader
            | Rule::FatPage
            | Rule::CommandKnown
            | Rule::CommandOnce
            | Rule::SegmentName
            | Rule::SegmentPage
            | Rule::SegmentProtection
            | Rule::BytesEncrypted
            | Rule::NumberShift
            | Rule::SectionName
            | Rule::SectionAlone
            | Rule::EntryOne => Profile::Unambiguous,
            Rule::BindOnce
            | Rule::ExportEdge
            | Rule::SymbolKind
            | Rule::SymbolTotal
            | Rule::ExportSymbol
            | Rule::IndirectName
            | Rule::ImportLibrary
            | Rule::SignatureSlot
            | Rule::DirectoryAgree => Profile::Unambiguous,
            Rule::SignatureMissing
            | Rule::SignatureExecutable
            | Rule::DirectoryRepeated
            | Rule::SignatureSlack
            | Rule::SignatureHash => Profile::Sealed,
            // registry: end
        }
    }

    /// The answer of the rule: its break at the least place, if there is one.
    pub const fn judge(self, least: Option<u64>) -> Result<(), Break>
        ensures { MatchOption least (IsOk result)
            (λ place. IsErrAnd result (λ b. (b.rule ≡ self) × (b.place ≡ place))) }
    {
        match least {
            Some(place) => Err(Break::at(self, place)),
            None => Ok(()),
        }
    }
}

impl fmt::Debug for Rule {
    fn fmt<W: fmt::Write>(&self, f: &mut fmt::Formatter<W>) -> fmt::Result {
        f.write_str(self.name())
    }
}

impl fmt::Display for Rule {
    ghost output = { λ rule. Some (name_of rule) };

    ghost styled_output = { λ rule spec. Some (styled_text spec (name_of rule)) };

    fn fmt<W: fmt::Write>(&self, f: &mut fmt::Formatter<W>) -> fmt::Result {
        f.pad(self.name())
    }
}

// A name without the zero byte that ends it.
fn without_zero(name: &'static str) -> &'static str
    ensures { (text : List ℕ) → name.now ≡ text ++ 0 ∷ [] → result.now ≡ text }
{
    name.strip_suffix('\0').unwrap_or(name)
}

/// A broken rule, and the place at which it is broken: an offset in bytes from the start of the
/// file, or of the image where an image alone is judged.
#[derive(Clone, Copy, Debug)]
pub struct Break {
    /// The rule that is broken.
    pub rule: Rule,
    /// The offset in bytes of what breaks the rule.
    pub place: u64,
}

// The length in bytes of the longest text of a break: 20 of `segment-file-overlap`, 6 of ` at 0x`,
// and 16 digits.
const LONGEST_TEXT: usize = 42;

impl Break {
    /// The break of `rule` at `place`.
    pub const fn at(rule: Rule, place: u64) -> Break
        ensures rule { result.rule ≡ rule }
        ensures place { result.place ≡ place }
    {
        Break { rule, place }
    }

    // The text in reports, with room for the longest.
    fn text(self) -> Result<InlineText<LONGEST_TEXT>, fmt::Error>
        ensures { IfOk result (λ text. inline_text text ≡ text_of self) }
    {
        let mut text = InlineText::new();
        write!(text, "{} at 0x{:x}", self.rule, self.place)?;
        Ok(text)
    }
}

/// The name of the rule and the place, as `entry at 0x20`. A width applies to the whole.
impl fmt::Display for Break {
    ghost output = { λ b. Some (text_of b) };

    ghost styled_output = { λ b spec. Some (styled_text spec (text_of b)) };

    fn fmt<W: fmt::Write>(&self, f: &mut fmt::Formatter<W>) -> fmt::Result {
        let text = self.text()?;
        f.pad(text.as_str())
    }
}
