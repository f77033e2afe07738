//! Faults: why no program is made of an object.
ghost use Rattle.std.specs.Prelude.{◌≡◌};
ghost use Rattle.bpf_btf.specs.Faults.{btf_fault};
ghost use Rattle.bpf_isa.specs.declared.fault.LoadFault.{LoadFault};

use crate::missing::ALL_HELPERS;
use crate::sources::Source;
use bpf_btf::BtfFault;
use bpf_isa::{LoadFault, PieceFault};
use bpf_packet::UseFault;

/// Why a relocation against a symbol isn't done.
#[derive(Clone, Copy)]
pub enum RelocationFault {
    /// The symbol isn't defined in the object: a function or a variable of the kernel, or a missing
    /// one.
    Extern,
    /// Neither a call nor a wide load.
    RelocationKind,
    /// A call of what is no function of the section or of `.text`.
    CallTarget,
    /// The relocation of a call is at another instruction.
    NoCall,
    /// A wide load of the address of data, or of what is no map.
    Data,
    /// The relocation of a map is at another instruction, or at one that has a number.
    NoLoad,
}

/// Why no program is made of an object.
///
/// A number in it is a slot of the program that would come out, the one that a relocation is of:
/// slots of `.text` count behind those of the section.
#[derive(Clone, Copy)]
pub enum LinkFault {
    /// The bytes aren't an ELF file.
    NotElf,
    /// The file isn't of 64 bits.
    Class,
    /// The file isn't little-endian.
    Order,
    /// The object isn't relocatable.
    Kind,
    /// The object isn't for BPF.
    Machine,
    /// The table of sections doesn't lie in the file, or isn't of this layout.
    SectionTable,
    /// A name of more than 255 bytes is asked for.
    LongName,
    /// There is no code section of the name that is asked for, or none at all.
    NoSection,
    /// More than one code section may be meant.
    ManySections,
    /// A code section doesn't lie in the file, or isn't of whole slots.
    Section,
    /// There are more than 65,535 slots.
    TooLong,
    /// The code section doesn't end with an exit or a jump that is always taken.
    RunsOff,
    /// There is more than one table of symbols, or it doesn't lie in the file.
    SymbolTable,
    /// There is more than one section of maps.
    ManyMapSections,
    /// There are more than 16 maps.
    TooManyMaps,
    /// A table of relocations isn't of this layout, doesn't lie in the file, or stands beside
    /// another one of its section.
    RelocationTable,
    /// A relocation names no slot of its section, or not one after the slot of the relocation
    /// before.
    Place,
    /// A relocation names no symbol of the table.
    Symbol(usize),
    /// A relocation against a symbol isn't done, for this reason. The name of the symbol stands at
    /// this place in the file.
    Relocation {
        fault: RelocationFault,
        slot: usize,
        at: usize,
    },
    /// Relocations are against symbols that aren't defined in the object, the first at this slot. The
    /// names of so many of these symbols stand at the first of these places in the file: of all, or
    /// of the first 17.
    Undefined {
        slot: usize,
        count: usize,
        places: [usize; 17],
    },
    /// The words are no program; the slot of the fault comes from this one of the object.
    Program {
        fault: LoadFault,
        source: Option<Source>,
    },
    /// Memory ran out.
    Memory,
    /// The program refers to a section of data of more than 65,536 bytes.
    LongData,
    /// A section of data that the program refers to doesn't lie in the file.
    DataSection,
    /// A relocation of data is no address of data, or doesn't lie in them. The name of its symbol
    /// stands at this place in the file, which is the file's end where there is no symbol.
    Pointer {
        at: usize,
    },
    /// More than one function of the code section may be the entry.
    ManyPrograms,
    /// The code section has no function of the name that is asked for, or it begins at no slot of it.
    NoEntry,
    /// The words at this slot, which comes from this one of the object, call the helper of this
    /// number, which the machine doesn't have. Of each number of the kernel's list it is said whether
    /// the words call that one, too, and the machine doesn't have it.
    Helper {
        slot: usize,
        helper: u32,
        source: Option<Source>,
        others: [bool; ALL_HELPERS],
    },
    /// A text is no list of stubs.
    StubList,
    /// The number of a stub's helper isn't of 32 bits, or its value isn't -2147483648 to
    /// 2147483647.
    StubRange,
    /// A list of stubs names a helper twice.
    StubTwice,
    /// A list has more than 16 stubs.
    ManyStubs,
    /// The section `.BTF`, which tells the shapes of maps, isn't read.
    Types(BtfFault),
    /// BTF asks for so many relocations of fields (CO-RE), the first at this slot; the name of its
    /// section stands at this place in the file.
    Fields {
        count: u32,
        slot: usize,
        at: usize,
    },
    /// BTF says that the entry, whose name stands at this place in the file, takes the kernel's own
    /// struct of a packet, with addresses of 32 bits.
    Context {
        at: usize,
    },
    /// This is done with the address of the packet's struct at this slot of the program's own words,
    /// which comes from this one of the object.
    Packet {
        fault: UseFault,
        slot: usize,
        source: Option<Source>,
    },
    /// No table was found of what has that address.
    Unsettled,
    /// An object that is joined with another has more than 1,024 maps.
    ManyRecords,
    /// An object that is joined with another leaves more than 256 symbols undefined.
    ManyWanted,
    /// The data of an object of functions have addresses in them.
    Pointers,
    /// BTF doesn't say of the map, whose name stands at this place in the file, what the machine may
    /// have.
    Map {
        at: usize,
        fault: BtfFault,
    },
}

/// The number and the text of a fault of BTF.
fn btf_row(fault: BtfFault) -> (u8, &'static str)
    ensures number { result.0 ≡ (btf_fault fault).0 }
    ensures text { result.1.now ≡ (btf_fault fault).1 }
{
    (fault.number(), fault.text())
}

impl RelocationFault {
    ghost use Rattle.bpf_link.specs.Faults.{relocation_fault};

    /// Its number, and its text.
    fn row(self) -> (u8, &'static str)
        ensures number { result.0 ≡ (relocation_fault self).0 }
        ensures text { result.1.now ≡ (relocation_fault self).1 }
    {
        match self {
            RelocationFault::Extern => (19, "symbol is not defined in the object"),
            RelocationFault::RelocationKind => (20, "unknown relocation"),
            RelocationFault::CallTarget => (21, "call of no function of the program"),
            RelocationFault::NoCall => (22, "relocation of a call at no call"),
            RelocationFault::Data => (23, "reference to data that is no map"),
            RelocationFault::NoLoad => (24, "relocation of a map at no empty wide load"),
        }
    }
}

impl LinkFault {
    ghost use Rattle.bpf_link.specs.Faults.{link_fault};

    /// Its number, and its text.
    fn row(self) -> (u8, &'static str)
        ensures number { result.0 ≡ (link_fault self).0 }
        ensures text { result.1.now ≡ (link_fault self).1 }
    {
        match self {
            LinkFault::NotElf => (1, "no ELF file"),
            LinkFault::Class => (2, "not of 64 bits"),
            LinkFault::Order => (3, "not little-endian"),
            LinkFault::Kind => (4, "no relocatable object"),
            LinkFault::Machine => (5, "not for BPF"),
            LinkFault::SectionTable => (6, "malformed section table"),
            LinkFault::LongName => (7, "section name longer than 255 bytes"),
            LinkFault::NoSection => (8, "no such code section"),
            LinkFault::ManySections => (9, "more than one code section"),
            LinkFault::Section => (10, "malformed code section"),
            LinkFault::TooLong => (11, "program too long"),
            LinkFault::RunsOff => (12, "code section runs off its end"),
            LinkFault::SymbolTable => (13, "malformed symbol table"),
            LinkFault::ManyMapSections => (14, "more than one section of maps"),
            LinkFault::TooManyMaps => (15, "more than 16 maps"),
            LinkFault::RelocationTable => (16, "malformed relocation table"),
            LinkFault::Place => (17, "relocation at no slot, or out of order"),
            LinkFault::Symbol(_) => (18, "relocation against no symbol"),
            LinkFault::Relocation { fault, .. } => fault.row(),
            LinkFault::Undefined { .. } => RelocationFault::Extern.row(),
            LinkFault::Program { fault, .. } => (25, fault.text()),
            LinkFault::Memory => btf_row(BtfFault::Memory),
            LinkFault::LongData => (27, "data longer than 65536 bytes"),
            LinkFault::DataSection => (28, "malformed data section"),
            LinkFault::Pointer { .. } => (29, "address in data of what is no data"),
            LinkFault::ManyPrograms => (30, "more than one program in the code section"),
            LinkFault::NoEntry => (31, "no such function in the code section"),
            LinkFault::Helper { .. } => (25, PieceFault::UnknownHelper.text()),
            LinkFault::StubList => (32, "malformed list of stubs"),
            LinkFault::StubRange => (33, "helper or value of a stub out of range"),
            LinkFault::StubTwice => (34, "two stubs of one helper"),
            LinkFault::ManyStubs => (35, "more than 16 stubs"),
            LinkFault::Fields { .. } => (36, "relocations of fields"),
            LinkFault::ManyRecords => (37, "more than 1024 maps"),
            LinkFault::ManyWanted => (38, "more than 256 undefined symbols"),
            LinkFault::Pointers => (39, "addresses in the data of an object of functions"),
            LinkFault::Packet { fault, .. } => (fault.number(), fault.text()),
            LinkFault::Unsettled => (60, "use of the packet's struct can't be followed"),
            LinkFault::Context { .. } => (55, "entry takes the kernel's own struct of a packet"),
            LinkFault::Types(fault) | LinkFault::Map { fault, .. } => btf_row(fault),
        }
    }

    /// The number that is printed after E, 1 to 60, those of BTF 40 to 54, and those of a
    /// packet's struct 56 to 59; that of a program's fault is 25.
    pub fn number(self) -> u8
        ensures { result ≡ (link_fault self).0 }
    {
        self.row().0
    }

    /// The text that is printed after the number. That of a program's fault is the fault's own.
    pub fn text(self) -> &'static str
        ensures { result.now ≡ (link_fault self).1 }
    {
        self.row().1
    }
}
