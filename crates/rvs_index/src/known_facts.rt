// The facts of an instruction, each taken once.
ghost use Rattle.std.specs.Prelude.{◌≡◌, ◌<◌, ◌≤◌, ◌^◌, IfSome, option_map, pos, unsigned_abs};
ghost use Rattle.std.proofs.Props.{props};
ghost use Rattle.rvs_expr_text.specs.declared.lexeme.NumName.TheVariants.{Rs1Val, Rs2Val, ImmVal};
ghost use Rattle.rvs_expr_text.specs.declared.lexeme.NumName.TheVariants.{EaAlign};
ghost use Rattle.rvs_facts.specs.Facts.{facts_of, num_of};
ghost use Rattle.rvs_index.specs.Cells.{fact};
ghost use Rattle.rvs_index.specs.Signs.{signs_of, signs_word};

use crate::asked::Asked;
use crate::taken::{Operands, take_signs};
use rvs_expr::{Facts, NumName, RegName};
use rvs_facts::InsnFacts;
use rvs_insn::Insn;

/// The facts of an instruction with its numbers and their signs, so that no point works them out
/// again.
#[derive(Clone, Copy)]
pub(crate) struct Known {
    pub insn: Insn,
    pub first: u32,
    pub second: u32,
    pub rd: Option<u8>,
    pub rs1: Option<u8>,
    pub rs2: Option<u8>,
    pub rs1_val: Option<i64>,
    pub rs2_val: Option<i64>,
    pub imm_val: Option<i64>,
    /// Its signs, as the bits of a word.
    pub signs: u32,
    ghost signs_known: { signs
        ≡ signs_word (signs_of (facts_of insn first second)) } by { Prim.hlevel props },
    ghost rs1_known: { rs1_val ≡ num_of insn first second Rs1Val } by { Prim.hlevel props },
    ghost rs2_known: { rs2_val ≡ num_of insn first second Rs2Val } by { Prim.hlevel props },
    ghost imm_known: { imm_val ≡ num_of insn first second ImmVal } by { Prim.hlevel props },
    ghost rd_known: { rd ≡ insn.rd } by { Prim.hlevel props },
    ghost first_known: { rs1 ≡ insn.rs1 } by { Prim.hlevel props },
    ghost second_known: { rs2 ≡ insn.rs2 } by { Prim.hlevel props },
    ghost rd_small: { IfSome rd (λ n. n < 32) } by { Prim.hlevel props },
    ghost first_small: { IfSome rs1 (λ n. n < 32) } by { Prim.hlevel props },
    ghost second_small: { IfSome rs2 (λ n. n < 32) } by { Prim.hlevel props },
    ghost rs1_small: { IfSome rs1_val (λ z. unsigned_abs z ≤ 2 ^ 32) } by { Prim.hlevel props },
    ghost rs2_small: { IfSome rs2_val (λ z. unsigned_abs z ≤ 2 ^ 32) } by { Prim.hlevel props },
    ghost imm_small: { IfSome imm_val (λ z. unsigned_abs z ≤ 2 ^ 32) } by { Prim.hlevel props },
}

/// Takes each fact but the alignment, which few points say. The instruction is taken by value, so
/// that it need not lie in memory and each field is known where its caller says it.
#[tactic(auto, unfolding(crate::specs::Signs::signs_of))]
#[inline(always)]
pub(crate) fn take_facts(insn: Insn, first: u32, second: u32) -> Known
    ensures insn { result.insn ≡ insn }
    ensures first { result.first ≡ first }
    ensures second { result.second ≡ second }
{
    let facts = InsnFacts {
        insn: &insn,
        first,
        second,
    };
    let rd = facts.reg(RegName::Rd);
    let rs1 = facts.reg(RegName::Rs1);
    let rs2 = facts.reg(RegName::Rs2);
    let rs1_val = facts.num(NumName::Rs1Val);
    let rs2_val = facts.num(NumName::Rs2Val);
    let imm_val = facts.num(NumName::ImmVal);
    let signs = take_signs(Operands {
        rd,
        rs1,
        rs2,
        rs1_val,
        rs2_val,
        imm_val,
    });
    Known {
        insn,
        first,
        second,
        rd,
        rs1,
        rs2,
        rs1_val,
        rs2_val,
        imm_val,
        signs,
    }
}

/// The same with the alignment, which is worked out once for all points of a list.
#[derive(Clone, Copy)]
pub(crate) struct Aligned {
    pub known: Known,
    ea_align: Option<i64>,
    ghost align_known: { ea_align
        ≡ num_of known.insn known.first known.second EaAlign } by { Prim.hlevel props },
    ghost align_small: { IfSome ea_align (λ z. unsigned_abs z ≤ 2 ^ 32) } by { Prim.hlevel props },
}

impl Aligned {
    pub(crate) fn new(known: Known) -> Self
        ensures { result.known ≡ known }
    {
        let ea_align = known.alignment();
        Aligned { known, ea_align }
    }
}

impl Facts for Aligned {
    ghost use Rattle.rvs_facts.specs.Facts.{facts_of};

    ghost table = { λ a. facts_of a.known.insn a.known.first a.known.second };

    fn reg(&self, name: RegName) -> Option<u8> {
        match name {
            RegName::Rd => self.known.rd,
            RegName::Rs1 => self.known.rs1,
            RegName::Rs2 => self.known.rs2,
            _ => None,
        }
    }

    fn num(&self, name: NumName) -> Option<i64> {
        match name {
            NumName::Rs1Val => self.known.rs1_val,
            NumName::Rs2Val => self.known.rs2_val,
            NumName::ImmVal => self.known.imm_val,
            NumName::EaAlign => self.ea_align,
        }
    }
}

impl Known {
    /// The place of the address within its word, for loads and stores. Of the instruction a copy is
    /// looked at, so that these facts need not lie in memory.
    #[inline(always)]
    pub(crate) fn alignment(&self) -> Option<i64>
        ensures value { result
            ≡ num_of self.now.insn self.now.first self.now.second EaAlign }
        ensures small { IfSome result (λ z. unsigned_abs z ≤ 2 ^ 32) }
    {
        let insn = self.insn;
        let facts = InsnFacts {
            insn: &insn,
            first: self.first,
            second: self.second,
        };
        facts.num(NumName::EaAlign)
    }
}
