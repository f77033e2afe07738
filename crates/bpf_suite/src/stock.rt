//! The words that tests of a file share, and what is kept of them where tests have maps of their
//! own.
ghost use Rattle.std.specs.Prelude.{◌≡◌, IfErr, IfNone, IfOk, IfSome, OnErr, OnOk};
ghost use Rattle.bpf_isa.specs.Checker.{IsAccepted, IsRefused};
ghost use Rattle.bpf_isa.specs.Programs.{IsProgram};
ghost use Rattle.bpf_suite.specs.Benches.{Loads, RefusesProgram};
ghost use Rattle.bpf_suite.specs.Outcomes.{Reads};
ghost use Rattle.bpf_suite.specs.Stocks.{AreAdmitted, AsideOf, Brings, IsRefusedBy, IsToBring, StandsOn};

use crate::outcome::{loaded, maps_of};
use crate::refusal::Refusal;
use crate::setting::Setting;
use crate::words::Words;
use bpf_isa::{Demands, LoadFault, MapTable};
use bpf_machine::Cpu;
use bpf_text::AsmFault;
use std::alloc::{AllocError, Global};
use std::marker::Model;
use std::mem::replace;

/// The words of the program that tests share, or the fault of its listing. Contracts see these.
#[derive(Drop)]
pub struct Stock {
    words: Result<Words, AsmFault>,
    /// What the words ask of maps, from the first test on that has other maps than the one before.
    demands: Option<Demands>,
    /// A machine on the words, while they are refused.
    spare: Option<Cpu>,
}

impl Model for Stock {
    ghost use Rattle.std.specs.Prelude.{ℕ, List, Result};
    ghost use Rattle.bpf_text.specs.declared.fault.AsmFault.{AsmFault};
    ghost use Rattle.bpf_suite.specs.Stocks.{IsStock};

    ghost Value = { Result (List ℕ) AsmFault };

    ghost view = { λ s. s.words };

    ghost invariant = { λ s. IsStock s.words s.demands s.spare };
}

impl Stock {
    /// These words, of which nothing is kept.
    pub fn of(words: Result<Words, AsmFault>) -> Stock
        ensures { result ≡ words }
    {
        Stock {
            words,
            demands: None,
            spare: None,
        }
    }

    /// Brings a machine onto the words with the maps of a test. One that stands on them is opened
    /// again, or set aside while they are refused: so this takes no time in the words' length, but
    /// for the first test.
    pub fn bring(
        &mut self,
        alloc: Global,
        machine: &mut Result<Cpu, Refusal>,
        setting: &Setting<'_, '_>,
    ) -> Result<(), AllocError>
        requires { IsToBring setting.now self.old machine.old }
        ensures brings { Brings setting.now machine.old machine.new result }
        ensures same { self.new ≡ self.old }
    {
        match self.admitted(alloc, setting)? {
            Ok(maps) => self.stand(alloc, machine, setting, maps),
            Err(refusal) => self.refuse(machine, refusal),
        }
    }

    /// The maps of a test, if its words are accepted with them, or why there is no program of them.
    fn admitted(
        &mut self,
        alloc: Global,
        setting: &Setting<'_, '_>,
    ) -> Result<Result<MapTable, Refusal>, AllocError>
        requires { Reads setting.now.is_listing setting.now.program self.old }
        ensures ok { IfOk result (λ maps. IfOk maps (AreAdmitted setting.now self.old)) }
        ensures err { IfOk result (λ maps. IfErr maps (RefusesProgram setting.now)) }
        ensures same { self.new ≡ self.old }
    {
        let maps = match maps_of(setting) {
            Ok(maps) => maps,
            Err(refusal) => return Ok(Err(refusal)),
        };
        let words = match &self.words {
            Ok(words) => words,
            Err(fault) => return Ok(Err(Refusal::Listing(*fault))),
        };
        match fault_with(alloc, words, &mut self.demands, &maps)? {
            Some(fault) => Ok(Err(Refusal::Load(fault))),
            None => Ok(Ok(maps)),
        }
    }

    /// Brings a machine onto the words, which are accepted with these maps of a test: the one that
    /// stands there, or that was set aside, or a new one.
    fn stand(
        &mut self,
        alloc: Global,
        machine: &mut Result<Cpu, Refusal>,
        setting: &Setting<'_, '_>,
        maps: MapTable,
    ) -> Result<(), AllocError>
        requires maps { AreAdmitted setting.now self.old maps }
        requires machine { StandsOn self.old machine.old }
        ensures brings { Brings setting.now machine.old machine.new result }
        ensures same { self.new ≡ self.old }
    {
        match machine {
            Ok(cpu) => stand_again(alloc, cpu, maps),
            Err(_) => {
                *machine = standing(alloc, &self.words, &mut self.spare, setting, maps)?;
                Ok(())
            }
        }
    }

    /// Puts a refusal in a machine's place, unless it is want of memory, and sets the machine aside.
    fn refuse(
        &mut self,
        machine: &mut Result<Cpu, Refusal>,
        refusal: Refusal,
    ) -> Result<(), AllocError>
        requires { StandsOn self.old machine.old }
        ensures refused { OnOk result (IsRefusedBy refusal machine.new) }
        ensures err { OnErr result (machine.new ≡ machine.old) }
        ensures same { self.new ≡ self.old }
    {
        if refusal.is_memory() {
            return Err(AllocError);
        }
        match replace(machine, Err(refusal)) {
            Ok(cpu) => {
                self.spare = Some(cpu);
                Ok(())
            }
            Err(_) => Ok(()),
        }
    }
}

/// The fault that words have with maps, None where they are accepted. What they ask of maps is kept.
fn fault_with(
    alloc: Global,
    words: &Words,
    kept: &mut Option<Demands>,
    maps: &MapTable,
) -> Result<Option<LoadFault>, AllocError>
    requires { IfSome kept.old (λ bytes. bytes ≡ words.now) }
    ensures none { IfOk result (λ fault. IfNone fault (IsAccepted words.now maps.now)) }
    ensures fault { IfOk result (λ fault. IfSome fault (IsRefused words.now maps.now)) }
    ensures asked { IfSome kept.new (λ bytes. bytes ≡ words.now) }
{
    let demands = demands_of(alloc, words, kept.take())?;
    let fault = demands.fault(maps);
    *kept = Some(demands);
    Ok(fault)
}

/// What words ask of maps: what is kept, or what is found now.
fn demands_of(alloc: Global, words: &Words, kept: Option<Demands>) -> Result<Demands, AllocError>
    requires { IfSome kept (λ bytes. bytes ≡ words.now) }
    ensures { IfOk result (λ demands. demands ≡ words.now) }
{
    match kept {
        Some(demands) => Ok(demands),
        None => Demands::of(alloc, words.as_slice()),
    }
}

/// Opens a machine again with other maps, and with no context.
fn stand_again(alloc: Global, cpu: &mut Cpu, maps: MapTable) -> Result<(), AllocError>
    requires { IsAccepted cpu.old.program.bytes maps }
    ensures program { OnOk result (cpu.new.program ≡ record cpu.old.program { maps = maps }) }
    ensures known { IsProgram cpu.new.program }
    ensures err { OnErr result (cpu.new ≡ cpu.old) }
{
    let opened = cpu.reopen_with(alloc, maps, &[]);
    cpu.invariant();
    match opened {
        Ok(()) => Ok(()),
        Err(_) => Err(AllocError),
    }
}

/// A machine that stands on words that are accepted with these maps of a test: the one that was set
/// aside, or a new one.
fn standing(
    alloc: Global,
    words: &Result<Words, AsmFault>,
    spare: &mut Option<Cpu>,
    setting: &Setting<'_, '_>,
    maps: MapTable,
) -> Result<Result<Cpu, Refusal>, AllocError>
    requires maps { AreAdmitted setting.now words.now maps }
    requires aside { AsideOf words.now spare.old }
    ensures loads { IfOk result (Loads setting.now) }
    ensures aside { AsideOf words.now spare.new }
{
    match spare.take() {
        Some(mut cpu) => {
            stand_again(alloc, &mut cpu, maps)?;
            Ok(Ok(cpu))
        }
        None => loaded(alloc, setting, words),
    }
}
