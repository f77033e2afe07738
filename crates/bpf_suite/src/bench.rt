//! The program that tests of a file share, and the machine that they run on, one after another.
ghost use Rattle.std.specs.Prelude.{◌≡◌, ◌++◌, IfOk, List, None, Ok, Option, OnOk, false, true, unwrap_or};
ghost use Rattle.bpf_isa.specs.Programs.{Checked};
ghost use Rattle.bpf_steps.specs.State.{State};
ghost use Rattle.bpf_cover.specs.Coverage.{covered};
ghost use Rattle.bpf_suite.specs.Benches.{IsReady, Loads, ReasonOf, outcome_by, shares_program};
ghost use Rattle.bpf_suite.specs.Cells.{cell_lines};
ghost use Rattle.bpf_suite.specs.Covers.{Finds, IsFound, Notes};
ghost use Rattle.bpf_suite.specs.Faults.{has_part};
ghost use Rattle.bpf_suite.specs.Images.{IsImage};
ghost use Rattle.bpf_suite.specs.Outcomes.{Comes, Reads};
ghost use Rattle.bpf_suite.specs.Reports.{AreTold};
ghost use Rattle.bpf_suite.specs.Stocks.{Brings, IsToBring};
ghost use Rattle.bpf_suite.specs.Tests.{body_for, limit, limited, program_line, setting};
ghost use Rattle.bpf_suite.specs.Verdicts.{wrong_cells};
ghost use Rattle.bpf_suite.specs.declared.cells.Cell.{Cell};
ghost use Rattle.bpf_suite.specs.declared.kind.Part.TheVariants as part;
ghost use Rattle.bpf_suite.specs.declared.section.Section.{Section};
ghost use Rattle.bpf_suite.specs.declared.setting.Setting.{Setting};

use crate::ending::Wanted;
use crate::image::{Image, complete};
use crate::kind::Part;
use crate::outcome::{loaded, outcome_by_image, outcome_on};
use crate::reading::{ReadTest, Reading, place_of};
use crate::refusal::Refusal;
use crate::section::{Section, Text, are_same};
use crate::setting::{Setting, setting_of};
use crate::stock::Stock;
use crate::test::{has_part, lines_in};
use crate::values::{WrongCells, wrong_cells};
use crate::words::{Words, words_of};
use bpf_cover::Coverage;
use bpf_isa::Program;
use bpf_machine::Cpu;
use bpf_text::AsmFault;
use std::alloc::{AllocError, Global};
use std::marker::Model;

/// The sections that tests share, what is made of them, and a machine that stands on their program,
/// or why there is none. Contracts see the sections and the machine.
#[derive(Drop)]
pub struct Bench<'b, 'a> {
    shared: Reading<'b, 'a>,
    /// The words of their program.
    stock: Stock,
    /// What is wanted of cells.
    wanted: Wanted<'a>,
    /// What their cells ask of maps, and make of them.
    image: Image,
    /// The maps of the test that was run last, where it has some of its own: those of the machine.
    maps: Option<Text<'a>>,
    machine: Result<Cpu, Refusal>,
}

impl<'b, 'a> Model for Bench<'b, 'a> {
    ghost use Rattle.bpf_isa.specs.Programs.{Checked};
    ghost use Rattle.bpf_steps.specs.State.{State};
    ghost use Rattle.bpf_cover.specs.Coverage.{covered};
    ghost use Rattle.bpf_suite.specs.Benches.{IsBench, Shared};

    ghost Value = { Shared };

    ghost view = { λ b. record { sections = b.shared; machine = b.machine } };

    ghost invariant = { λ b. IsBench b.shared b.stock b.wanted b.image b.maps b.machine };
}

impl<'b, 'a> Bench<'b, 'a> {
    /// Checks the program of these sections, which tests share.
    pub fn of(alloc: Global, shared: &'b [Section<'a>]) -> Result<Bench<'b, 'a>, AllocError>
        ensures { IfOk result (λ bench. bench.sections ≡ shared.now) }
    {
        let read = Reading::of(alloc, shared)?;
        let none = Reading::of(alloc, &[])?;
        let setting = setting_of(&none, &read, read.limit());
        let words = words_of(alloc, setting.is_listing, setting.program.bytes)?;
        let wanted = lines_in(alloc, shared, Part::CellsAfter)?;
        let machine = loaded(alloc, &setting, &words)?;
        let image = Image::of(alloc, read.cells())?;
        Ok(Bench {
            shared: read,
            stock: Stock::of(words),
            wanted: Wanted::of(wanted),
            image,
            maps: None,
            machine,
        })
    }

    /// A test with these sections of its own.
    pub fn test<'x>(&'x self, own: &'x Reading<'b, 'a>) -> ReadTest<'x, 'b, 'a>
        ensures { result ≡ own.now ++ self.now.sections }
    {
        ReadTest {
            own,
            shared: &self.shared,
        }
    }

    /// The machine, or why there is none.
    pub fn machine(&self) -> &Result<Cpu, Refusal>
        ensures { result.now ≡ self.now.machine }
    {
        &self.machine
    }

    /// What the lines of a test say of cells that they don't hold where its program has ended.
    pub fn wrong_cells(
        &mut self,
        alloc: Global,
        own: &Reading<'b, 'a>,
        outcome: &Result<Cpu, Refusal>,
    ) -> Result<WrongCells<'a>, AllocError>
        ensures wrong { IfOk result
            (AreTold (wrong_cells (own.now ++ self.old.sections) outcome.now)) }
        ensures same { self.new ≡ self.old }
    {
        wrong_for(alloc, own, &mut self.wanted, outcome)
    }

    /// What they say where its program has ended on the bench's own machine.
    pub fn wrong_here(
        &mut self,
        alloc: Global,
        own: &Reading<'b, 'a>,
    ) -> Result<WrongCells<'a>, AllocError>
        ensures wrong { IfOk result
            (AreTold (wrong_cells (own.now ++ self.old.sections) self.old.machine)) }
        ensures same { self.new ≡ self.old }
    {
        wrong_for(alloc, own, &mut self.wanted, &self.machine)
    }

    /// Runs a test of the shared program on the machine. Answers why the test is refused, if it is
    /// and others aren't; else the machine is what it came to.
    pub fn run(
        &mut self,
        alloc: Global,
        own: &Reading<'b, 'a>,
    ) -> Result<Option<Refusal>, AllocError>
        requires { shares_program own.now ≡ true }
        ensures comes { IfOk result (λ refusal.
            Comes (setting (own.now ++ self.old.sections)) (outcome_by self.new.machine refusal)) }
        ensures sections { self.new.sections ≡ self.old.sections }
    {
        let limit = self.limit(own);
        self.run_for(alloc, own, limit)
    }

    /// What a test with a program of its own comes to.
    pub fn run_alone(
        &mut self,
        alloc: Global,
        own: &Reading<'b, 'a>,
    ) -> Result<Result<Cpu, Refusal>, AllocError>
        ensures comes { IfOk result (Comes (setting (own.now ++ self.old.sections))) }
        ensures sections { self.new.sections ≡ self.old.sections }
    {
        let limit = self.limit(own);
        self.run_alone_for(alloc, own, limit)
    }

    /// The most steps that a test takes.
    fn limit(&self, own: &Reading<'b, 'a>) -> u64
        ensures { result ≡ limit (own.now ++ self.now.sections) }
    {
        place_of(Part::Steps, own, &self.shared).limit()
    }

    /// The line of the section in which a test's program stands.
    pub fn program_line(&self, own: &Reading<'b, 'a>) -> usize
        ensures { result ≡ program_line (own.now ++ self.now.sections) }
    {
        self.test(own).sections().program_line()
    }

    /// Runs a test of the shared program from its first step on, and marks what runs, for which memory
    /// is taken where it is the first that isn't refused.
    pub fn cover(
        &mut self,
        alloc: Global,
        own: &Reading<'b, 'a>,
        found: &mut Option<Coverage>,
    ) -> Result<(), AllocError>
        requires { shares_program own.now ≡ true }
        ensures found { OnOk result
            (Finds (own.now ++ self.old.sections) found.old found.new) }
        ensures sections { self.new.sections ≡ self.old.sections }
    {
        let limit = self.limit(own);
        match self.run_for(alloc, own, 0) {
            Ok(None) => note(alloc, &mut self.machine, limit, found),
            Ok(Some(_)) => Ok(()),
            Err(fault) => Err(fault),
        }
    }

    /// Runs a test with a program of its own, and answers what of that ran; None where it is refused.
    pub fn cover_alone(
        &mut self,
        alloc: Global,
        own: &Reading<'b, 'a>,
    ) -> Result<Option<Coverage>, AllocError>
        ensures found { IfOk result (Finds (own.now ++ self.old.sections) None) }
        ensures sections { self.new.sections ≡ self.old.sections }
    {
        let limit = self.limit(own);
        let mut machine = self.run_alone_for(alloc, own, 0)?;
        let mut found = None;
        note(alloc, &mut machine, limit, &mut found)?;
        Ok(found)
    }

    /// Runs a test of the shared program, for at most so many steps, on the machine, which gets the
    /// test's maps where the test before had others.
    fn run_for(
        &mut self,
        alloc: Global,
        own: &Reading<'b, 'a>,
        limit: u64,
    ) -> Result<Option<Refusal>, AllocError>
        requires { shares_program own.now ≡ true }
        ensures comes { IfOk result (λ refusal.
            Comes (limited limit (setting (own.now ++ self.old.sections)))
            (outcome_by self.new.machine refusal)) }
        ensures sections { self.new.sections ≡ self.old.sections }
    {
        let setting = setting_of(own, &self.shared, limit);
        let maps = own.maps();
        let stands = are_same(&self.maps, &maps);
        bring(alloc, &mut self.machine, stands, &setting, &mut self.stock)?;
        self.maps = maps;
        let shares = gets_shared(own, &self.shared);
        run_on(alloc, &mut self.machine, &setting, shares, &mut self.image)
    }

    /// What a test with a program of its own comes to in at most so many steps.
    fn run_alone_for(
        &mut self,
        alloc: Global,
        own: &Reading<'b, 'a>,
        limit: u64,
    ) -> Result<Result<Cpu, Refusal>, AllocError>
        ensures comes { IfOk result
            (Comes (limited limit (setting (own.now ++ self.old.sections)))) }
        ensures sections { self.new.sections ≡ self.old.sections }
    {
        let setting = setting_of(own, &self.shared, limit);
        let words = words_of(alloc, setting.is_listing, setting.program.bytes)?;
        let shares = gets_shared(own, &self.shared);
        outcome_of(alloc, &setting, &words, shares, &mut self.image)
    }
}

/// Runs a machine, if there is one, for at most so many steps, and marks what runs of its program.
fn note(
    alloc: Global,
    machine: &mut Result<Cpu, Refusal>,
    limit: u64,
    found: &mut Option<Coverage>,
) -> Result<(), AllocError>
    ensures found { OnOk result (Notes limit machine.old found.old found.new) }
    ensures loads { (t : Setting) → Loads t machine.old → Loads t machine.new }
{
    match machine {
        Ok(cpu) => note_run(alloc, cpu, limit, found),
        Err(_) => Ok(()),
    }
}

/// Runs a machine for at most so many steps, and marks what runs of its program.
fn note_run(
    alloc: Global,
    cpu: &mut Cpu,
    limit: u64,
    found: &mut Option<Coverage>,
) -> Result<(), AllocError>
    ensures found { OnOk result (Notes limit (Ok cpu.old) found.old found.new) }
    ensures program { cpu.new.program ≡ cpu.old.program }
{
    let mut coverage = found_or_begun(alloc, found.take(), cpu.program())?;
    coverage.run(cpu, limit);
    *found = Some(coverage);
    Ok(())
}

/// What was found of a program; nothing of this one, where nothing was.
fn found_or_begun(
    alloc: Global,
    found: Option<Coverage>,
    program: &Program,
) -> Result<Coverage, AllocError>
    ensures { IfOk result (λ coverage. (known : Option Checked) (xs : List State)
        → IsFound known xs found → coverage ≡ covered (unwrap_or known program.now) xs) }
{
    match found {
        Some(coverage) => Ok(coverage),
        None => Coverage::of(alloc, program),
    }
}

/// Whether a test with these sections of its own has the shared program.
pub fn shares_program(own: &[Section<'_>]) -> bool
    ensures { result ≡ shares_program own.now }
{
    !has_part(own, Part::Program)
}

/// Whether a test gets cells that tests share, since it has none of its own.
fn gets_shared(own: &Reading<'_, '_>, shared: &Reading<'_, '_>) -> bool
    ensures { result ≡ true → has_part part.Cells own.now ≡ false }
{
    !has_part(own.sections(), Part::Cells) && !shared.cells().is_empty()
}

/// What the lines of a test say of cells that they don't hold: its own, if it has some, else those
/// that are shared.
fn wrong_for<'a>(
    alloc: Global,
    own: &Reading<'_, 'a>,
    wanted: &mut Wanted<'a>,
    outcome: &Result<Cpu, Refusal>,
) -> Result<WrongCells<'a>, AllocError>
    ensures wrong { (shared : List Section)
        → wanted.old ≡ cell_lines (body_for part.CellsAfter shared)
        → IfOk result (AreTold (wrong_cells (own.now ++ shared) outcome.now)) }
    ensures lines { wanted.new ≡ wanted.old }
{
    if has_part(own.sections(), Part::CellsAfter) {
        let lines = lines_in(alloc, own.sections(), Part::CellsAfter)?;
        return wrong_cells(alloc, lines.as_slice(), outcome);
    }
    wanted.wrong_cells(alloc, outcome)
}

/// Brings a machine onto a program, where it doesn't stand on it.
fn bring(
    alloc: Global,
    machine: &mut Result<Cpu, Refusal>,
    stands: bool,
    setting: &Setting<'_, '_>,
    stock: &mut Stock,
) -> Result<(), AllocError>
    requires ready { IsToBring setting.now stock.old machine.old }
    requires stands { stands ≡ true → Loads setting.now machine.old }
    ensures brings { Brings setting.now machine.old machine.new result }
    ensures same { stock.new ≡ stock.old }
{
    if stands {
        return Ok(());
    }
    stock.bring(alloc, machine, setting)
}

/// What a program comes to on a machine of its own.
fn outcome_of(
    alloc: Global,
    setting: &Setting<'_, '_>,
    words: &Result<Words, AsmFault>,
    shares: bool,
    image: &mut Image,
) -> Result<Result<Cpu, Refusal>, AllocError>
    requires words { Reads setting.now.is_listing setting.now.program words.now }
    requires image { shares ≡ true → IsImage setting.now.cells image.old }
    ensures comes { IfOk result (Comes setting.now) }
    ensures image { (cells : List Cell) → (shares ≡ true → cells ≡ setting.now.cells)
        → IsImage cells image.old → IsImage cells image.new }
{
    let mut machine = loaded(alloc, setting, words)?;
    match run_on(alloc, &mut machine, setting, shares, image)? {
        Some(refusal) => Ok(Err(refusal)),
        None => Ok(machine),
    }
}

/// Runs a program on its machine, if it has one: with cells that tests share, by their image.
/// Answers why it is refused, if it is here and not on every context.
fn run_on(
    alloc: Global,
    machine: &mut Result<Cpu, Refusal>,
    setting: &Setting<'_, '_>,
    shares: bool,
    image: &mut Image,
) -> Result<Option<Refusal>, AllocError>
    requires { IsReady setting.now shares machine.old image.old }
    ensures loads { Loads setting.now machine.new }
    ensures comes { IfOk result (λ refusal.
        Comes setting.now (outcome_by machine.new refusal)) }
    ensures image { (cells : List Cell) → (shares ≡ true → cells ≡ setting.now.cells)
        → IsImage cells image.old → IsImage cells image.new }
{
    match machine {
        Ok(cpu) => {
            if shares {
                run_by(alloc, cpu, setting, image)
            } else {
                refusal_of(outcome_on(alloc, cpu, setting))
            }
        }
        Err(_) => Ok(None),
    }
}

/// Runs a program on its machine by an image of its cells. Answers why it is refused, if it is.
fn run_by(
    alloc: Global,
    cpu: &mut Cpu,
    setting: &Setting<'_, '_>,
    image: &mut Image,
) -> Result<Option<Refusal>, AllocError>
    requires { IsReady setting.now true (Ok cpu.old) image.old }
    ensures comes { IfOk result (λ refusal.
        Comes setting.now (outcome_by (Ok cpu.new) refusal)) }
    ensures program { cpu.new.program ≡ cpu.old.program }
    ensures image { IsImage setting.now.cells image.new }
{
    complete(alloc, cpu, setting, image)?;
    refusal_of(outcome_by_image(alloc, cpu, setting, image))
}

/// Why a program is refused, if it is, unless memory ran out.
fn refusal_of(done: Result<(), Refusal>) -> Result<Option<Refusal>, AllocError>
    ensures { IfOk result (ReasonOf done) }
{
    match done {
        Ok(()) => Ok(None),
        Err(refusal) => {
            if refusal.is_memory() {
                Err(AllocError)
            } else {
                Ok(Some(refusal))
            }
        }
    }
}
