//! Going back: the text of an entry is put back into the state that its move led to. Each part is
//! read where it lies, and no entry is made.
ghost use Rattle.std.specs.Prelude.{◌≡◌, ◌≤◌, Bool, length};
ghost use Rattle.bpf_isa.specs.Programs.{IsStart};
ghost use Rattle.bpf_entries.specs.Fields.{FitsFields};
ghost use Rattle.bpf_entries.specs.Texts.{text as text_of};
ghost use Rattle.bpf_machine.specs.Moves.{HasCome, HasComeBy, Leads, overwritten};
ghost use Rattle.bpf_steps.specs.State.{State};
ghost use Rattle.bpf_machine.specs.Undoing.{IsTyped, undone, read_as, Restores, RestoresText};
ghost use Rattle.bpf_machine.specs.declared.moves.Move.{Move};

use super::Cpu;
use bpf_entries::weights::GREATEST;
use bpf_entries::{Entry, Status, kind_of, saved_in, slot_in, status_by};
use bpf_isa::Reg;
use byteorder::{ByteOrder, LittleEndian};

impl Cpu {
    /// Takes back the move with this entry, which led to the present state. Works from the entry
    /// and the present state alone.
    pub fn revert(&mut self, entry: &Entry)
        requires { HasCome self.old entry.now }
        ensures { (x : State) (m : Move) → Leads x m self.old → overwritten x m ≡ entry.now →
            self.new ≡ x }
    {
        is_typed(entry);
        let mut text = [0u8; GREATEST];
        let weight = entry.write(&mut text, false);
        self.revert_text(&text[..weight]);
    }

    /// Takes back the move whose entry has this text, which led to the present state. Works from
    /// the text and the present state alone.
    #[inline(always)]
    pub fn revert_text(&mut self, bytes: &[u8])
        requires { HasComeBy self.old bytes.now }
        ensures { (x : State) (m : Move) (mark : Bool) → Leads x m self.old →
            FitsFields (overwritten x m) → bytes.now ≡ text_of (overwritten x m) mark →
            self.new ≡ x }
    {
        self.undo(kind_of(bytes), bytes);
    }

    /// Puts back the entry of a kind that bytes are read as.
    #[inline(always)]
    fn undo(&mut self, kind: u8, bytes: &[u8])
        requires kind { (1 ≤ kind) × (kind ≤ 12) }
        requires reads { RestoresText self.old kind bytes.now }
        ensures { self.new ≡ undone (read_as kind bytes.now) self.old }
    {
        match kind {
            1 => self.undo_register(bytes),
            2 => self.undo_jump(bytes),
            3 => self.undo_call(bytes),
            4 => self.undo_return(bytes),
            5 => self.undo_store(bytes),
            6 => self.undo_fetch(bytes),
            7 => self.undo_cell(bytes),
            8 => self.undo_trace(bytes),
            9 => self.undo_end(),
            10 => self.undo_edit_register(bytes),
            11 => self.undo_edit_bytes(bytes),
            _ => self.undo_edit_pc(bytes),
        }
    }

    /// Takes a step back that replaced one register.
    #[inline(always)]
    fn undo_register(&mut self, bytes: &[u8])
        requires { RestoresText self.old 1 bytes.now }
        ensures { self.new ≡ undone (read_as 1 bytes.now) self.old }
    {
        let value = LittleEndian::read_u64(&bytes[6..14]);
        self.put_register_back(slot_in(bytes), register_by(bytes[5]), value);
    }

    /// Puts back what a step replaced in a register.
    #[inline(always)]
    #[tactic(auto, unfolding(crate::specs::Undoing::undone))]
    fn put_register_back(&mut self, pc: u16, register: Reg, value: u64)
        requires { Restores self.old (Entry.Register pc register value) }
        ensures { self.new ≡ undone (Entry.Register pc register value) self.old }
    {
        self.write_register(register, value);
        self.pc = pc;
    }

    /// Takes a jump back.
    #[inline(always)]
    #[tactic(auto, unfolding(crate::specs::Undoing::undone))]
    fn undo_jump(&mut self, bytes: &[u8])
        requires { RestoresText self.old 2 bytes.now }
        ensures { self.new ≡ undone (read_as 2 bytes.now) self.old }
    {
        self.pc = slot_in(bytes);
    }

    /// Takes a local call back: the bytes of its frame stand again, and the frame goes.
    #[inline(never)]
    #[tactic(auto, unfolding(crate::specs::Undoing::undone))]
    fn undo_call(&mut self, bytes: &[u8])
        requires { RestoresText self.old 3 bytes.now }
        ensures { self.new ≡ undone (read_as 3 bytes.now) self.old }
    {
        let frame = self.innermost_frame();
        self.memory.put(frame, &bytes[5..517]);
        let _frame = self.pop();
        self.pc = slot_in(bytes);
    }

    /// Takes a return back: the frame that it popped is made again of the present pc and r6 to r9.
    #[inline(never)]
    #[tactic(auto, unfolding(crate::specs::Undoing::undone))]
    fn undo_return(&mut self, bytes: &[u8])
        requires { RestoresText self.old 4 bytes.now }
        ensures { self.new ≡ undone (read_as 4 bytes.now) self.old }
    {
        self.push(self.pc);
        self.restore(&saved_in(bytes));
        self.pc = slot_in(bytes);
    }

    /// Takes a store back: the old bytes stand again.
    #[inline(always)]
    fn undo_store(&mut self, bytes: &[u8])
        requires { RestoresText self.old 5 bytes.now }
        ensures { self.new ≡ undone (read_as 5 bytes.now) self.old }
    {
        let address = LittleEndian::read_u64(&bytes[5..13]);
        let old = &bytes[14..14 + usize::from(bytes[13])];
        self.put_store_back(slot_in(bytes), address, old);
    }

    /// Puts back what a store replaced.
    #[inline(always)]
    #[tactic(auto, unfolding(crate::specs::Undoing::undone))]
    fn put_store_back(&mut self, pc: u16, address: u64, old: &[u8])
        requires some { 1 ≤ length old.now }
        requires restores { Restores self.old (Entry.Store pc address old.now) }
        ensures { self.new ≡ undone (Entry.Store pc address old.now) self.old }
    {
        self.memory.put(address, old);
        self.pc = pc;
    }

    /// Takes a store back that also fetched into a register.
    #[inline(never)]
    fn undo_fetch(&mut self, bytes: &[u8])
        requires { RestoresText self.old 6 bytes.now }
        ensures { self.new ≡ undone (read_as 6 bytes.now) self.old }
    {
        let value = LittleEndian::read_u64(&bytes[6..14]);
        let address = LittleEndian::read_u64(&bytes[14..22]);
        let old = &bytes[23..23 + usize::from(bytes[22])];
        self.put_fetch_back(slot_in(bytes), register_by(bytes[5]), value, address, old);
    }

    /// Puts back what a store and its fetch replaced.
    #[inline(always)]
    #[tactic(auto, unfolding(crate::specs::Undoing::undone))]
    fn put_fetch_back(&mut self, pc: u16, register: Reg, value: u64, address: u64, old: &[u8])
        requires some { 1 ≤ length old.now }
        requires restores { Restores self.old (Entry.Fetch pc register value address old.now) }
        ensures { self.new ≡ undone (Entry.Fetch pc register value address old.now) self.old }
    {
        self.memory.put(address, old);
        self.write_register(register, value);
        self.pc = pc;
    }

    /// Takes an update back: the cell's old bytes stand again.
    #[inline(never)]
    fn undo_cell(&mut self, bytes: &[u8])
        requires { RestoresText self.old 7 bytes.now }
        ensures { self.new ≡ undone (read_as 7 bytes.now) self.old }
    {
        let r0 = LittleEndian::read_u64(&bytes[5..13]);
        let address = LittleEndian::read_u64(&bytes[13..21]);
        self.put_cell_back(slot_in(bytes), r0, address, &bytes[21..bytes.len() - 2]);
    }

    /// Puts back what an update replaced.
    #[inline(always)]
    #[tactic(auto, unfolding(crate::specs::Undoing::undone))]
    fn put_cell_back(&mut self, pc: u16, r0: u64, address: u64, cell: &[u8])
        requires some { 1 ≤ length cell.now }
        requires restores { Restores self.old (Entry.Cell pc r0 address cell.now) }
        ensures { self.new ≡ undone (Entry.Cell pc r0 address cell.now) self.old }
    {
        self.memory.put(address, cell);
        self.registers[0] = r0;
        self.pc = pc;
    }

    /// Takes a traced word back.
    #[inline(never)]
    fn undo_trace(&mut self, bytes: &[u8])
        requires { RestoresText self.old 8 bytes.now }
        ensures { self.new ≡ undone (read_as 8 bytes.now) self.old }
    {
        self.put_trace_back(slot_in(bytes), LittleEndian::read_u64(&bytes[5..13]));
    }

    /// Puts back what the call replaced that traced a word.
    #[inline(always)]
    #[tactic(auto, unfolding(crate::specs::Undoing::undone))]
    fn put_trace_back(&mut self, pc: u16, r0: u64)
        requires { Restores self.old (Entry.Trace pc r0) }
        ensures { self.new ≡ undone (Entry.Trace pc r0) self.old }
    {
        let _word = self.trace.pop();
        self.registers[0] = r0;
        self.pc = pc;
    }

    /// Takes the step back that ended the machine.
    #[inline(always)]
    #[tactic(auto, unfolding(crate::specs::Undoing::undone))]
    fn undo_end(&mut self)
        ensures { self.new ≡ undone (Entry.End) self.old }
    {
        self.status = Status::Running;
    }

    /// Takes an edit of a register back.
    #[inline(never)]
    #[tactic(auto, unfolding(crate::specs::Undoing::undone))]
    fn undo_edit_register(&mut self, bytes: &[u8])
        requires { RestoresText self.old 10 bytes.now }
        ensures { self.new ≡ undone (read_as 10 bytes.now) self.old }
    {
        let value = LittleEndian::read_u64(&bytes[4..12]);
        self.write_register(register_by(bytes[3]), value);
    }

    /// Takes an edit of bytes back.
    #[inline(never)]
    #[tactic(auto, unfolding(crate::specs::Undoing::undone))]
    fn undo_edit_bytes(&mut self, bytes: &[u8])
        requires { RestoresText self.old 11 bytes.now }
        ensures { self.new ≡ undone (read_as 11 bytes.now) self.old }
    {
        let address = LittleEndian::read_u64(&bytes[3..11]);
        self.memory.put(address, &bytes[11..bytes.len() - 2]);
    }

    /// Takes an edit of pc back.
    #[inline(never)]
    #[tactic(auto, unfolding(crate::specs::Undoing::undone))]
    fn undo_edit_pc(&mut self, bytes: &[u8])
        requires { RestoresText self.old 12 bytes.now }
        ensures { self.new ≡ undone (read_as 12 bytes.now) self.old }
    {
        let number = LittleEndian::read_u64(&bytes[6..14]);
        self.pc = slot_in(bytes);
        self.status = status_by(bytes[5], number);
    }
}

/// The register with a number.
#[inline(always)]
fn register_by(number: u8) -> Reg
    requires { number ≤ 10 }
    ensures { result ≡ number }
{
    match Reg::new(number) {
        Some(register) => register,
        None => unreachable!(),
    }
}

/// Brings into a proof what the type of an entry says of the bytes that an edit replaced.
fn is_typed(entry: &Entry)
    ensures { IsTyped entry.now }
{
    if let Entry::EditBytes { address, old } = entry {
        let _address = *address;
        let _len = old.len();
    }
}
