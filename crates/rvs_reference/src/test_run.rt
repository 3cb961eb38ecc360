// The image of a test, and its run.
ghost use Rattle.std.specs.Prelude.{◌≡◌, ◌++◌, [], ℕ, codes, IfOk};
ghost use Rattle.rvs_base.specs.Number.{hex_word_of};
ghost use Rattle.rvs_insn.specs.Isa.{Isa};
ghost use Rattle.rvs_machine.specs.Image.{ImageValue};
ghost use Rattle.rvs_machine.specs.Machine.{started};
ghost use Rattle.rvs_asm.specs.Answer.{answer};
ghost use Rattle.rvs_reference.specs.TestTexts.{trap_text, trap_detail, steps_text};
ghost use Rattle.rvs_reference.specs.TestRun.{is_image_name, is_executable_name, text_found};
ghost use Rattle.rvs_reference.specs.TestRun.{image_found, limit_of, run_found, with_trace};
ghost use Rattle.rvs_reference.specs.TestRun.{test_found, Accepts};

use crate::assembling::assemble;
use rvs_asm_text::steps_of_header;
use rvs_base::{Items, NoMemory, Text, hex_text};
use rvs_elf::read_elf;
use rvs_insn::IsaSpec;
use rvs_machine::{End, Image, Machine, Trace, Trap, TrapKind, read_image};
use rvs_plan::{Stop, accepted};
use std::alloc::Global;

/// How many instructions a test may have, where nothing says it.
const USUAL_LIMIT: u64 = 1_000_000;

/// What a run that halted leaves.
#[derive(Drop)]
pub struct Run {
    /// The words of the signature.
    pub words: Items<u32>,
    /// The executed instructions, in their order.
    pub trace: Trace,
}

/// Runs the named test on a core until it halts. It may have `steps` instructions, or where that is
/// `None` as many as the header of its text says, or else 1,000,000.
///
/// # Errors
///
/// [`Stop::Refused`] where the bytes have no image, where an instruction traps, and where the run
/// doesn't halt; [`Stop::NoMemory`].
pub fn run_bytes(
    alloc: Global,
    steps: Option<u64>,
    spec: IsaSpec,
    name: &str,
    bytes: &[u8],
) -> Result<Run, Stop>
    ensures { Accepts (test_found steps spec name.now bytes.now) result }
{
    let image = image_of(alloc, spec, name, bytes)?;
    run_image(alloc, name, limit_of(steps, name, bytes), spec, image)
}

/// How many instructions a test may have: what was asked for, or what the header of its text says,
/// or else 1,000,000.
pub fn limit_of(steps: Option<u64>, name: &str, bytes: &[u8]) -> u64
    ensures { result ≡ limit_of steps name.now bytes.now }
{
    match steps {
        Some(steps) => steps,
        None if is_image_name(name) || is_executable_name(name) => USUAL_LIMIT,
        None => steps_of_header(bytes).unwrap_or(USUAL_LIMIT),
    }
}

fn is_image_name(name: &str) -> bool
    ensures { result ≡ is_image_name name.now }
{
    name.as_bytes().ends_with(b".img")
}

fn is_executable_name(name: &str) -> bool
    ensures { result ≡ is_executable_name name.now }
{
    name.as_bytes().ends_with(b".elf")
}

/// The image of a test file, which is an image file, an executable or assembler text.
///
/// # Errors
///
/// [`Stop::Refused`] where the bytes have no image; [`Stop::NoMemory`].
pub fn image_of(alloc: Global, spec: IsaSpec, name: &str, bytes: &[u8]) -> Result<Image, Stop>
    ensures { Accepts (image_found spec name.now bytes.now) result }
{
    if is_image_name(name) {
        accepted(alloc, name, read_image(alloc, spec.memory, bytes))
    } else if is_executable_name(name) {
        accepted(alloc, name, read_elf(alloc, spec.memory, bytes))
    } else {
        image_of_text(alloc, spec, name, bytes)
    }
}

/// The image of assembler text. A refusal names it so.
///
/// # Errors
///
/// [`Stop::Refused`] where no image stands to the text; [`Stop::NoMemory`].
pub fn image_of_text(alloc: Global, spec: IsaSpec, name: &str, bytes: &[u8]) -> Result<Image, Stop>
    ensures { Accepts (text_found name.now (answer spec bytes.now)) result }
{
    accepted(alloc, name, assemble(alloc, bytes, &spec))
}

/// Runs the image of the named test on a core until it halts, for at most `limit` instructions.
///
/// # Errors
///
/// [`Stop::Refused`] where an instruction traps, and where the run doesn't halt;
/// [`Stop::NoMemory`].
pub fn run_image(
    alloc: Global,
    name: &str,
    limit: u64,
    spec: IsaSpec,
    image: Image,
) -> Result<Run, Stop>
    ensures { Accepts (run_found name.now limit spec image) result }
{
    let mut machine = Machine::new(image, spec);
    let mut trace = Items::new(alloc);
    let words = run_to_end(alloc, name, limit, &mut machine, &mut trace)?;
    Ok(Run { words, trace })
}

/// Runs a machine that has executed nothing until it halts, and gives the words of its signature.
fn run_to_end(
    alloc: Global,
    name: &str,
    limit: u64,
    machine: &mut Machine,
    trace: &mut Trace,
) -> Result<Items<u32>, Stop>
    ensures { (spec : Isa) (image : ImageValue) → machine.old ≡ started image spec
        → trace.old ≡ [] → Accepts (run_found name.now limit spec image)
        (with_trace trace.new result) }
{
    match machine.run(limit, trace) {
        End::Halted => {
            let words = machine.signature(alloc)?;
            Ok(words)
        },
        End::Trapped(trap) => Err(Stop::Refused(trap_text(alloc, name, trap)?)),
        End::StepLimit => Err(Stop::Refused(steps_text(alloc, name, limit)?)),
        End::NoMemory => Err(Stop::NoMemory),
    }
}

#[tactic(auto, unfolding(crate::specs::TestTexts::trap_text))]
fn trap_text(alloc: Global, name: &str, trap: Trap) -> Result<Text, NoMemory>
    ensures { IfOk result (λ text. text ≡ trap_text name.now trap) }
{
    let number = trap.kind.number();
    let pc = hex_text(alloc, trap.pc)?;
    let detail = trap_detail(alloc, trap.kind)?;
    Ok(Text::from(format!(in alloc; "{name}: trap {number} pc 0x{pc}{detail}")?))
}

fn trap_detail(alloc: Global, kind: TrapKind) -> Result<Text, NoMemory>
    ensures { IfOk result (λ text. text ≡ trap_detail kind) }
{
    match kind {
        TrapKind::Illegal { word } => detail_word(alloc, word),
        TrapKind::MisalignedTarget { target } => detail_word(alloc, target),
        TrapKind::MisalignedAccess { addr } => detail_word(alloc, addr),
        TrapKind::AccessFault { addr } => detail_word(alloc, addr),
        TrapKind::Ecall | TrapKind::Ebreak => Ok(Text::new(alloc)),
    }
}

fn detail_word(alloc: Global, word: u32) -> Result<Text, NoMemory>
    ensures { IfOk result (λ text. text ≡ codes " 0x" ++ hex_word_of word) }
{
    let word = hex_text(alloc, word)?;
    Ok(Text::from(format!(in alloc; " 0x{word}")?))
}

#[tactic(auto, unfolding(crate::specs::TestTexts::steps_text))]
fn steps_text(alloc: Global, name: &str, limit: u64) -> Result<Text, NoMemory>
    ensures { IfOk result (λ text. text ≡ steps_text name.now limit) }
{
    Ok(Text::from(format!(in alloc; "{name}: steps {limit}")?))
}
