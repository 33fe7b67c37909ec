//! Programmes that are read from files.

ghost use Rattle.std.specs.Prelude.{◌≡◌, ◌≤◌, ◌⊎◌, ◌∷◌, [], ℕ, List, length, IfOk, IfErr};
ghost use Rattle.walk_io.specs.Files.{Told, IfRead};
ghost use Rattle.walk_model.specs.declared.faults.WalkFault.TheVariants as fault;
ghost use Rattle.walk_top.specs.Verdicts.{Found, MayBe, fault_of_plan, plan_found, named_plan, job_plan};
ghost use Rattle.walk_programme.specs.Programme.{plan_of};
ghost use Rattle.walk_top.specs.ErrorLines.{HasLine};
ghost use Rattle.walk_top.specs.Stages.{IsRefusal, IsFaultIn};
ghost use Rattle.walk_top.specs.Jobs.{double, files_of, half, made_plan, quick_plan};
ghost use Rattle.walk_top.specs.JobViews.{job_of, IsInRange};

use crate::files::read_fault;
use crate::texts::{TextFault, read_text};
use crate::words::Words;
use std::alloc::Global;
use walk_io::Files;
use walk_model::{Fraction, Limit, Plan, PlanFault, Rule, StartRule, WalkFault};
use walk_programme::read_plan;

/// How many bytes a programme may have.
const MOST_BYTES: usize = 65536;

/// The fault of a programme as one of the whole call.
fn fault_of_plan(fault: PlanFault) -> WalkFault
    ensures fault { result ≡ fault_of_plan fault }
    ensures lined { HasLine result }
{
    match fault {
        PlanFault::Memory => WalkFault::Memory,
        fault => WalkFault::Programme { fault },
    }
}

/// The plan of a programme's text.
fn text_plan(alloc: Global, text: &[u8]) -> Result<Plan, WalkFault>
    requires { length text.now ≤ 65536 }
    ensures plan { IfOk result (λ p. plan_found (plan_of text.now) ≡ Found p) }
    ensures fault { IfErr result (IsRefusal (plan_found (plan_of text.now))) }
    ensures lined { IfErr result HasLine }
{
    match read_plan(alloc, text) {
        Ok(plan) => Ok(plan),
        Err(fault) => Err(fault_of_plan(fault)),
    }
}

/// The plan of a programme's file.
pub(crate) fn read_programme<F: Files>(
    alloc: Global,
    files: &mut F,
    name: &str,
) -> Result<Plan, WalkFault>
    ensures plan { IfOk result (MayBe (named_plan (F.told files.old) name.now)) }
    ensures fault { IfErr result (IsFaultIn (λ told. named_plan told name.now) (record {
      names = name.now ∷ [];
      told = F.told files.old;
      reads = F.faults files.old;
      reads_after = F.faults files.new;
    })) }
    ensures lined { IfErr result HasLine }
    ensures kept { (n : List ℕ) → F.told files.new n ≡ F.told files.old n }
    ensures later { (n : List ℕ) → F.faults files.old n ≤ F.faults files.new n }
{
    match read_text(alloc, files, name, MOST_BYTES) {
        Ok(text) => text_plan(alloc, &text),
        Err(TextFault::Read) => Err(read_fault(alloc, name)),
        Err(TextFault::TooLong) => Err(WalkFault::Limit {
            what: Limit::ProgrammeBytes,
        }),
        Err(TextFault::Memory) => Err(WalkFault::Memory),
    }
}

/// The plan of `quick`.
fn plan_of_quick(length: u32) -> Plan
    requires { length ≤ 1048576 }
    ensures { result ≡ quick_plan length }
{
    Plan {
        weighted: false,
        undirected: false,
        length,
        start: StartRule::Each,
        retries: 32,
        stop: Fraction::never(),
        restart: Fraction::never(),
        rule: Rule::Plain,
    }
}

/// One half.
#[tactic(auto, using(crate::proofs::MadeLemmas::ratios))]
fn half() -> Fraction
    ensures { result ≡ half }
{
    Fraction { top: 1, bottom: 2 }
}

/// Two.
#[tactic(auto, using(crate::proofs::MadeLemmas::ratios))]
fn double() -> Fraction
    ensures { result ≡ double }
{
    Fraction { top: 2, bottom: 1 }
}

/// The plan of `make`.
fn plan_of_make() -> Plan
    ensures { result ≡ made_plan }
{
    Plan {
        weighted: true,
        undirected: false,
        length: 20,
        start: StartRule::Each,
        retries: 32,
        stop: Fraction::never(),
        restart: Fraction::never(),
        rule: Rule::Node2vec {
            p: half(),
            q: double(),
        },
    }
}

/// The plan of a command.
pub(crate) fn find_plan<F: Files>(
    alloc: Global,
    files: &mut F,
    words: &Words<'_>,
) -> Result<Plan, WalkFault>
    requires { IsInRange words.now }
    ensures plan { IfOk result (MayBe (job_plan (F.told files.old) (job_of words.now))) }
    ensures fault { IfErr result (IsFaultIn (λ told. job_plan told (job_of words.now)) (record {
      names = files_of (job_of words.now);
      told = F.told files.old;
      reads = F.faults files.old;
      reads_after = F.faults files.new;
    })) }
    ensures lined { IfErr result HasLine }
    ensures kept { (n : List ℕ) → F.told files.new n ≡ F.told files.old n }
    ensures later { (n : List ℕ) → F.faults files.old n ≤ F.faults files.new n }
{
    match words {
        Words::Quick(quick) => Ok(plan_of_quick(quick.length)),
        Words::Walk(walk) => read_programme(alloc, files, walk.programme),
        Words::Make(_) => Ok(plan_of_make()),
    }
}
