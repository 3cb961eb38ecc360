// Lines.
ghost use Rattle.std.specs.Prelude.{◌≡◌, IfOk, None};
ghost use Rattle.std.specs.List.{list_all, list_any};
ghost use Rattle.rvs_asm_text.specs.Text.{is_text_byte, trim};
ghost use Rattle.rvs_asm_text.specs.Operands.{is_empty};
ghost use Rattle.rvs_asm_text.specs.Instructions.{mnemonic_of, IsReady};
ghost use Rattle.rvs_asm_text.specs.Directives.{directive_of};
ghost use Rattle.rvs_asm_text.specs.Lines.{by_word, statement_of, statement_in, line_with};
ghost use Rattle.rvs_asm_text.specs.Lines.{read_line};

use crate::arguments::Operands;
use crate::bodies::{Body, Line, LineFault};
use crate::cutting::{first_word_and_rest, trimmed};
use crate::directives::{Directive, read_directed, read_directive, read_section};
use crate::instructions::{Mnemonic, read_instruction, read_mnemonic};
use crate::names::Name;
use rvs_base::cut;

/// Whether all bytes may stand outside a comment: tabs and printable ASCII.
fn all_printable(text: &[u8]) -> bool
    ensures { result ≡ list_all is_text_byte text.now }
{
    for c in text {
        if *c != b'\t' && (*c < 32 || *c > 126) {
            return false;
        }
    }
    true
}

/// Whether an operand is empty.
fn has_empty(mut operands: Operands<'_>) -> bool
    ensures { result ≡ list_any is_empty operands.entry }
{
    while let Some(text) = operands.next() {
        if text.is_empty() {
            return true;
        }
    }
    false
}

/// The instruction of a statement whose first word is no directive.
pub(crate) fn read_by_mnemonic<'t>(
    in_text: bool,
    operands: Operands<'t>,
    mnemonic: Option<Mnemonic>,
) -> Result<Body<'t>, LineFault>
    ensures body { result ≡ by_word in_text operands.entry None mnemonic }
    ensures ready { IfOk result IsReady }
{
    match mnemonic {
        Some(mnemonic) => {
            if in_text {
                read_instruction(mnemonic, operands)
            } else {
                Err(LineFault::BadLine)
            }
        },
        None => Err(LineFault::UnknownInstruction),
    }
}

/// A statement by its first word.
fn read_by_word<'t>(
    in_text: bool,
    word: &'t [u8],
    operands: Operands<'t>,
) -> Result<Body<'t>, LineFault>
    ensures body { result
        ≡ by_word in_text operands.entry (directive_of word.now) (mnemonic_of word.now) }
    ensures ready { IfOk result IsReady }
{
    match read_directive(word) {
        Some(directive) => read_directed(directive, operands),
        None => read_by_mnemonic(in_text, operands, read_mnemonic(word)),
    }
}

/// The statement of a line.
fn read_statement<'t>(
    in_text: bool,
    word: &'t [u8],
    operands: Operands<'t>,
) -> Result<Body<'t>, LineFault>
    ensures body { result ≡ statement_of in_text word.now operands.entry }
    ensures ready { IfOk result IsReady }
{
    if word.is_empty() {
        return Ok(Body::Nothing);
    }
    if word == ".section".as_bytes() {
        return read_section(operands);
    }
    if has_empty(operands.again()) {
        return Err(LineFault::BadLine);
    }
    read_by_word(in_text, word, operands)
}

/// The statement in what follows a line's label.
fn read_rest<'t>(in_text: bool, text: &'t [u8]) -> Result<Body<'t>, LineFault>
    ensures body { result ≡ statement_in in_text (trim text.now) }
    ensures ready { IfOk result IsReady }
{
    let (word, rest) = first_word_and_rest(trimmed(text));
    read_statement(in_text, word, Operands::new(rest))
}

/// A line of a label, where it has one, and of a statement that was read.
fn with_label<'t>(
    label: Option<Name<'t>>,
    body: Result<Body<'t>, LineFault>,
) -> Result<Line<'t>, LineFault>
    requires { IfOk body IsReady }
    ensures line { result ≡ line_with label.entry body.entry }
    ensures ready { IfOk result (λ l. IsReady l.body) }
{
    match body {
        Ok(body) => Ok(Line { label, body }),
        Err(fault) => Err(fault),
    }
}

/// What a line is, in the text or in the data. It has no line feed.
///
/// # Errors
///
/// The line's first fault, in the order of [`LineFault`].
#[tactic(auto, unfolding(crate::specs::Lines::read_line, crate::specs::Text::tokens))]
pub fn read_line<'t>(in_text: bool, line: &'t [u8]) -> Result<Line<'t>, LineFault>
    ensures line { result ≡ read_line in_text line.now }
    ensures ready { IfOk result (λ l. IsReady l.body) }
{
    let (text, _) = cut(line, b'#');
    // Empty lines and comments can be many.
    if text.is_empty() {
        return Ok(Line {
            label: None,
            body: Body::Nothing,
        });
    }
    if !all_printable(text) {
        return Err(LineFault::BadLine);
    }
    match cut(text, b':') {
        (_, None) => with_label(None, read_rest(in_text, text)),
        (before, Some(after)) => match Name::read(trimmed(before)) {
            None => Err(LineFault::BadLine),
            Some(label) => with_label(Some(label), read_rest(in_text, after)),
        },
    }
}
