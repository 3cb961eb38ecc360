// The text that says to users what refusals mean: whether it has each number of each kind once.
use rvs_abstract::AbstractRefusal;
use rvs_asm::AsmKind;
use rvs_base::{Text, release};
use rvs_cgf::CgfKind;
use rvs_cross::CrossRefusal;
use rvs_device::DeviceRefusal;
use rvs_elf::ElfRefusal;
use rvs_expr_text::{ExprKind, ExprRefusal};
use rvs_isa::IsaKind;
use rvs_machine::{ImageKind, TrapKind};
use rvs_select::SelectKind;
use rvs_yaml::YamlKind;
use std::alloc::Global;
use std::test::Fail;

const KINDS: [&str; 13] = [
    "abstract", "asm", "cgf", "cross", "database", "device", "elf", "expr", "image", "isa", "sig",
    "trap", "yaml",
];

fn asm_end() -> u8 {
    let kind = AsmKind::BadRegion;
    let number = kind.number();
    release(kind);
    number.saturating_add(1)
}

fn cgf_end() -> u8 {
    let kind = CgfKind::NoRoom;
    let number = kind.number();
    release(kind);
    number.saturating_add(1)
}

fn cross_end() -> u8 {
    let kind = CrossRefusal::Expr(ExprRefusal {
        column: 0,
        kind: ExprKind::TooManyConstants,
    });
    let number = kind.number();
    release(kind);
    number.saturating_add(1)
}

fn device_end(alloc: Global) -> u8 {
    let kind = DeviceRefusal::UnknownPlaceholder {
        word: Text::new(alloc),
    };
    let number = kind.number();
    release(kind);
    number.saturating_add(1)
}

fn elf_end() -> u8 {
    let kind = ElfRefusal::BadRegion;
    let number = kind.number();
    release(kind);
    number.saturating_add(1)
}

/// The number behind the last one of each kind; the kinds of signature files have no numbers in
/// code.
fn ends(alloc: Global) -> [u8; 13] {
    [
        AbstractRefusal::BadSize.number().saturating_add(1),
        asm_end(),
        cgf_end(),
        cross_end(),
        SelectKind::TooManyTests.number().saturating_add(1),
        device_end(alloc),
        elf_end(),
        ExprKind::TooManyConstants.number().saturating_add(1),
        ImageKind::TooLarge.number().saturating_add(1),
        IsaKind::BadMemory.number().saturating_add(1),
        3,
        TrapKind::Ebreak.number().saturating_add(1),
        YamlKind::TooManyNodes.number().saturating_add(1),
    ]
}

/// How many lines of a text begin with a front.
fn count(text: &str, front: &str) -> usize {
    text.lines().filter(|line| line.starts_with(front)).count()
}

/// Adds how many lines the text has for a kind, and its numbers that have none or several.
fn tell_kind(
    alloc: Global,
    text: &str,
    (kind, end): (&str, u8),
    report: &mut String,
) -> Result<(), Fail> {
    let front = format!(in alloc; "{kind} ")?;
    write!(report, "{front}{}\n", count(text, front.as_str()))?;
    for number in 1..end {
        let front = format!(in alloc; "{kind} {number} ")?;
        let lines = count(text, front.as_str());
        if lines != 1 {
            write!(report, "{front}has {lines} lines\n")?;
        }
    }
    Ok(())
}

/// For each kind how many lines the text has, and its numbers that have none or several.
pub fn tell(alloc: Global, text: &str) -> Result<String, Fail> {
    let ends = ends(alloc);
    let mut report = String::new(alloc);
    for at in 0..KINDS.len() {
        tell_kind(alloc, text, (KINDS[at], ends[at]), &mut report)?;
    }
    Ok(report)
}
