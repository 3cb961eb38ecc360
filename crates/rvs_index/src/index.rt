// The points by mnemonic and by shape.
ghost use Rattle.std.specs.Prelude.{◌≡◌, ◌≤◌, ◌<◌, ◌^◌, ◌&&◌, All, IfOk, IfSome, Some};
ghost use Rattle.std.specs.Prelude.{◌*◌, length, ℕ, List, false, option_map, pos, true};
ghost use Rattle.std.specs.Prelude.{unsigned_abs};
ghost use Rattle.rvs_machine.specs.Traces.{word_of};
ghost use Rattle.rvs_facts.specs.Facts.{facts_of as table_of};
ghost use Rattle.rvs_index.specs.Buckets.{is_seen, bucket_count};
ghost use Rattle.rvs_index.specs.Cells as cell;
ghost use Rattle.rvs_index.specs.Cells.{Fits};
ghost use Rattle.rvs_index.specs.Counting.{aims_in, hits_insn};
ghost use Rattle.rvs_index.specs.Entries as entry;
ghost use Rattle.rvs_index.specs.State.{added};
ghost use Rattle.rvs_index.specs.declared.asked.Asked.TheVariants as fact;
ghost use Rattle.rvs_log.specs.Lines.{log_limit};

use crate::asked::{Asked, asked_bucket};
use crate::buckets::BUCKETS;
use crate::cell::{Cell, add_cell, may_hit};
use crate::entries::{LOOK, REGISTERS, add_entry, field_of};
use crate::hits::add_insn;
use crate::known_facts::{Known, take_facts};
use crate::mark::{Head, PLACES, add_groups, add_groups_apart};
use crate::slot::Slot;
use crate::tables::{Tables, fill};
use crate::wanted::Wanted;
use rvs_base::{Items, NoMemory, beside};
use rvs_facts::number;
use rvs_insn::{Insn, OP_COUNT};
use rvs_log::{Registers, facts_of};
use rvs_points::Label;
use std::alloc::Global;
use std::marker::Model;

/// The points of the selected labels by mnemonic and by shape, but no cross points: an instruction
/// is held against few of the points of its own mnemonic's labels.
#[derive(Drop)]
pub struct Index<'g> {
    labels: &'g [Label],
    lists: Items<Items<Slot<'g>>>,
    /// The lists once more, as far as their points say values.
    cells: Items<Cell>,
    /// The first lists once more, as far as their points say signs.
    heads: Items<Head>,
    /// For each mnemonic, one whose cells are its own.
    blocks: Items<usize>,
    /// For each mnemonic, which facts its points say values of.
    wanted: Items<Wanted>,
    /// The cells of registers once more, where they have one point.
    entries: Items<u32>,
    /// The lists of an address's places once more, as far as their points say signs besides: four
    /// for each mnemonic.
    places: Items<Head>,
}

impl<'g> Model for Index<'g> {
    ghost use Rattle.std.specs.Prelude.{◌≡◌, ◌*◌, List, length};
    ghost use Rattle.std.specs.Coded.{codes};
    ghost use Rattle.rvs_expr.specs.contracts.expr.Expr as expr;
    ghost use Rattle.rvs_points.specs.declared.group.Label as group;
    ghost use Rattle.rvs_insn.specs.Table.{op_count};
    ghost use Rattle.rvs_index.specs.Buckets.{bucket_count};
    ghost use Rattle.rvs_index.specs.Index.{IsIndex, insns_key};
    ghost use Rattle.rvs_index.specs.Cells.{HasCells};
    ghost use Rattle.rvs_index.specs.Marks.{HasFirstHeads, HasPlaceHeads};
    ghost use Rattle.rvs_index.specs.Shared.{HasBlocks};
    ghost use Rattle.rvs_index.specs.Wanted.{HasWanted};
    ghost use Rattle.rvs_index.specs.Entries.{HasEntries, register_count};

    ghost Value = { List group.Label };

    ghost coded = { Prim.hlevel (codes, expr.the_row.coded) };

    ghost view = { λ i. i.labels.now };

    ghost invariant = { λ i. IsIndex insns_key i.labels.now i.lists
        × (length i.lists ≡ op_count * bucket_count)
        × HasCells i.lists i.cells × (length i.cells ≡ op_count * bucket_count)
        × HasFirstHeads i.lists i.heads × (length i.heads ≡ op_count)
        × HasBlocks i.cells i.blocks × (length i.blocks ≡ op_count)
        × HasWanted i.lists i.wanted × (length i.wanted ≡ op_count)
        × HasEntries i.cells i.entries × (length i.entries ≡ op_count * register_count)
        × HasPlaceHeads i.lists i.places × (length i.places ≡ 4 * op_count) };
}

/// A value as the place that an address has within its word.
#[inline(always)]
fn place_of(value: i64) -> Option<usize>
    ensures value { IfSome result (λ place. value ≡ pos place) }
    ensures low { IfSome result (λ place. place < 4) }
{
    if value >= 0 && value < 4 {
        Some(value as usize)
    } else {
        None
    }
}

impl<'g> Index<'g> {
    /// The index of these labels.
    ///
    /// # Errors
    ///
    /// [`NoMemory`].
    pub fn new(alloc: Global, labels: &'g [Label]) -> Result<Index<'g>, NoMemory>
        requires room { length (aims_in labels.now) < 2 ^ 63 }
        ensures { IfOk result (λ i. i ≡ labels.now) }
    {
        let mut tables = Tables {
            lists: Items::new(alloc),
            cells: Items::new(alloc),
            heads: Items::new(alloc),
            blocks: Items::new(alloc),
            wanted: Items::new(alloc),
            entries: Items::new(alloc),
            places: Items::new(alloc),
        };
        let filled = fill(alloc, labels, &mut tables);
        let (_, tables) = beside(filled, tables)?;
        Ok(Index {
            labels,
            lists: tables.lists,
            cells: tables.cells,
            heads: tables.heads,
            blocks: tables.blocks,
            wanted: tables.wanted,
            entries: tables.entries,
            places: tables.places,
        })
    }

    /// The labels that it was made of.
    pub fn labels(&self) -> &[Label]
        ensures { result.now ≡ self.now }
    {
        self.labels
    }

    /// Adds one to the counts of the points of a list that an instruction of these facts hits.
    #[inline(never)]
    fn add_list(&self, bucket: usize, facts: Known, counts: &mut [u64])
        requires bucket { bucket < bucket_count }
        requires fits { Fits (aims_in self.now) (2 ^ 41) counts.old }
        ensures { counts.new ≡ added (λ a. is_seen (Some bucket) a.point
            && hits_insn a (Some facts.insn) facts.first facts.second)
            (aims_in self.now) counts.old }
    {
        let insn = &facts.insn;
        let key = number(insn.op) * BUCKETS + bucket;
        let slots = self.lists.as_slice()[key].as_slice();
        add_insn(slots, &facts, counts);
    }

    /// The same of the first list.
    #[inline(always)]
    fn add_first(&self, facts: &Known, counts: &mut [u64])
        requires fits { Fits (aims_in self.now) (2 ^ 41) counts.old }
        ensures { counts.new ≡ added (λ a. is_seen (Some 0) a.point
            && hits_insn a (Some facts.now.insn) facts.now.first facts.now.second)
            (aims_in self.now) counts.old }
    {
        let insn = &facts.insn;
        let head = &self.heads.as_slice()[number(insn.op)];
        if head.more {
            self.add_list(0, *facts, counts);
        } else {
            add_groups(head.marks.as_slice(), facts.signs, counts);
        }
    }

    /// The same of the list of a fact's value.
    #[inline(always)]
    fn add_value(&self, asked: Asked, value: i64, facts: &Known, counts: &mut [u64])
        requires fact { cell.fact asked
            (table_of facts.now.insn facts.now.first facts.now.second) ≡ Some value }
        requires small { unsigned_abs value ≤ 2 ^ 32 }
        requires fits { Fits (aims_in self.now) (2 ^ 41) counts.old }
        ensures { counts.new
            ≡ added (λ a. is_seen (Some (cell.asked_bucket asked value)) a.point
            && hits_insn a (Some facts.now.insn) facts.now.first facts.now.second)
            (aims_in self.now) counts.old }
    {
        let bucket = asked_bucket(asked, value);
        let insn = &facts.insn;
        let block = self.blocks.as_slice()[number(insn.op)];
        let cell = &self.cells.as_slice()[block * BUCKETS + bucket];
        if !cell.more {
            add_cell(cell, value, counts);
        } else if may_hit(cell, value) {
            self.add_list(bucket, *facts, counts);
        }
    }

    /// The same of the list of a place that an address has within its word.
    #[inline(always)]
    fn add_place(&self, place: usize, facts: &Known, counts: &mut [u64])
        requires place { place < 4 }
        requires fact { cell.fact fact.EaAlign
            (table_of facts.now.insn facts.now.first facts.now.second) ≡ Some (pos place) }
        requires fits { Fits (aims_in self.now) (2 ^ 41) counts.old }
        ensures { counts.new
            ≡ added (λ a. is_seen (Some (cell.asked_bucket fact.EaAlign (pos place))) a.point
            && hits_insn a (Some facts.now.insn) facts.now.first facts.now.second)
            (aims_in self.now) counts.old }
    {
        let insn = &facts.insn;
        let head = &self.places.as_slice()[PLACES * number(insn.op) + place];
        if head.more {
            self.add_rare(Asked::EaAlign, place as i64, *facts, counts);
        } else {
            add_groups_apart(head.marks.as_slice(), facts.signs, counts);
        }
    }

    /// Whether points of the instruction's mnemonic say values of a fact. Where none does, its list
    /// adds nothing.
    #[inline(always)]
    fn wants(&self, asked: Asked, facts: &Known) -> bool
        ensures { result ≡ false → (counts : List ℕ) → length counts ≡ length (aims_in self.now)
            → counts ≡ added (λ a. is_seen (cell.sight asked
            (table_of facts.now.insn facts.now.first facts.now.second)) a.point
            && hits_insn a (Some facts.now.insn) facts.now.first facts.now.second)
            (aims_in self.now) counts }
    {
        let insn = &facts.insn;
        self.wanted.as_slice()[number(insn.op)].has(asked)
    }

    /// The same of a fact, where it is there and points say its values.
    #[inline(always)]
    fn add_asked(&self, asked: Asked, value: Option<i64>, facts: &Known, counts: &mut [u64])
        requires fact { cell.fact asked
            (table_of facts.now.insn facts.now.first facts.now.second) ≡ value }
        requires small { IfSome value (λ z. unsigned_abs z ≤ 2 ^ 32) }
        requires fits { Fits (aims_in self.now) (2 ^ 41) counts.old }
        ensures { counts.new ≡ added (λ a. is_seen (cell.sight asked
            (table_of facts.now.insn facts.now.first facts.now.second)) a.point
            && hits_insn a (Some facts.now.insn) facts.now.first facts.now.second)
            (aims_in self.now) counts.old }
    {
        if self.wants(asked, facts) {
            match value {
                None => {},
                Some(value) => self.add_value(asked, value, facts, counts),
            }
        }
    }

    /// The same where it is rare: a call, so that what is often done stays small.
    #[inline(never)]
    fn add_rare(&self, asked: Asked, value: i64, facts: Known, counts: &mut [u64])
        requires fact { cell.fact asked
            (table_of facts.insn facts.first facts.second) ≡ Some value }
        requires small { unsigned_abs value ≤ 2 ^ 32 }
        requires fits { Fits (aims_in self.now) (2 ^ 41) counts.old }
        ensures { counts.new
            ≡ added (λ a. is_seen (Some (cell.asked_bucket asked value)) a.point
            && hits_insn a (Some facts.insn) facts.first facts.second)
            (aims_in self.now) counts.old }
    {
        self.add_value(asked, value, &facts, counts);
    }

    /// The same of the place, where there is an address and points say it.
    #[inline(always)]
    fn add_aligned(&self, facts: &Known, counts: &mut [u64])
        requires fits { Fits (aims_in self.now) (2 ^ 41) counts.old }
        ensures { counts.new ≡ added (λ a. is_seen (cell.sight fact.EaAlign
            (table_of facts.now.insn facts.now.first facts.now.second)) a.point
            && hits_insn a (Some facts.now.insn) facts.now.first facts.now.second)
            (aims_in self.now) counts.old }
    {
        if self.wants(Asked::EaAlign, facts) {
            match facts.alignment() {
                None => {},
                Some(value) => match place_of(value) {
                    None => self.add_rare(Asked::EaAlign, value, *facts, counts),
                    Some(place) => self.add_place(place, facts, counts),
                },
            }
        }
    }

    /// The same of the list of a register that the instruction has in a field.
    #[inline(always)]
    fn add_register(&self, asked: Asked, register: u8, facts: &Known, counts: &mut [u64])
        requires field { entry.is_field asked ≡ true }
        requires small { register < 32 }
        requires fact { cell.fact asked
            (table_of facts.now.insn facts.now.first facts.now.second) ≡ Some (pos register) }
        requires fits { Fits (aims_in self.now) (2 ^ 41) counts.old }
        ensures { counts.new
            ≡ added (λ a. is_seen (Some (cell.asked_bucket asked (pos register))) a.point
            && hits_insn a (Some facts.now.insn) facts.now.first facts.now.second)
            (aims_in self.now) counts.old }
    {
        let insn = &facts.insn;
        let block = self.blocks.as_slice()[number(insn.op)];
        let place = 32 * field_of(asked) + usize::from(register);
        let entry = self.entries.as_slice()[block * REGISTERS + place];
        if entry == LOOK {
            self.add_rare(asked, i64::from(register), *facts, counts);
        } else {
            add_entry(entry, counts);
        }
    }

    /// The same of a field, where the instruction has it.
    #[inline(always)]
    fn add_field(&self, asked: Asked, register: Option<u8>, facts: &Known, counts: &mut [u64])
        requires field { entry.is_field asked ≡ true }
        requires small { IfSome register (λ n. n < 32) }
        requires fact { cell.fact asked
            (table_of facts.now.insn facts.now.first facts.now.second)
            ≡ option_map (λ n. pos n) register }
        requires fits { Fits (aims_in self.now) (2 ^ 41) counts.old }
        ensures { counts.new ≡ added (λ a. is_seen (cell.sight asked
            (table_of facts.now.insn facts.now.first facts.now.second)) a.point
            && hits_insn a (Some facts.now.insn) facts.now.first facts.now.second)
            (aims_in self.now) counts.old }
    {
        match register {
            None => {},
            Some(register) => self.add_register(asked, register, facts, counts),
        }
    }

    /// Adds one to the counts of the points that an instruction of these facts hits, list by list.
    #[inline(always)]
    fn add_lists(&self, facts: &Known, counts: &mut [u64])
        requires fits { Fits (aims_in self.now) (log_limit) counts.old }
        ensures { counts.new
            ≡ added (λ a. hits_insn a (Some facts.now.insn) facts.now.first facts.now.second)
            (aims_in self.now) counts.old }
    {
        self.add_first(facts, counts);
        self.add_field(Asked::Rd, facts.rd, facts, counts);
        self.add_field(Asked::Rs1, facts.rs1, facts, counts);
        self.add_field(Asked::Rs2, facts.rs2, facts, counts);
        self.add_asked(Asked::Rs1Val, facts.rs1_val, facts, counts);
        self.add_asked(Asked::Rs2Val, facts.rs2_val, facts, counts);
        self.add_asked(Asked::ImmVal, facts.imm_val, facts, counts);
        self.add_aligned(facts, counts);
    }

    /// The same of an instruction whose registers held these words before it. It is given twice, so
    /// that a caller can say by value which of its fields are there.
    #[inline(always)]
    fn add_shape(&self, insn: &Insn, shape: Insn, first: u32, second: u32, counts: &mut [u64])
        requires shape { shape ≡ insn.now }
        requires fits { Fits (aims_in self.now) (log_limit) counts.old }
        ensures { counts.new ≡ added (λ a. hits_insn a (Some insn.now) first second)
            (aims_in self.now) counts.old }
    {
        let facts = take_facts(shape, first, second);
        self.add_lists(&facts, counts);
    }

    /// The same where the fields are seldom so.
    #[inline(never)]
    fn add_other(&self, insn: Insn, first: u32, second: u32, counts: &mut [u64])
        requires fits { Fits (aims_in self.now) (log_limit) counts.old }
        ensures { counts.new ≡ added (λ a. hits_insn a (Some insn) first second)
            (aims_in self.now) counts.old }
    {
        self.add_shape(&insn, insn, first, second, counts);
    }

    /// The same, by which fields are there: each arm is compiled for its own, without a test of the
    /// options.
    #[inline(always)]
    fn add_shaped<Caller>(&self, insn: &Insn, first: u32, second: u32, counts: &mut [u64])
        requires fits { Fits (aims_in self.now) (log_limit) counts.old }
        ensures { counts.new ≡ added (λ a. hits_insn a (Some insn.now) first second)
            (aims_in self.now) counts.old }
    {
        match (insn.rd, insn.rs1, insn.rs2, insn.imm) {
            (Some(rd), Some(rs1), Some(rs2), None) => {
                let shape = Insn {
                    op: insn.op,
                    rd: Some(rd),
                    rs1: Some(rs1),
                    rs2: Some(rs2),
                    imm: None,
                };
                self.add_shape(insn, shape, first, second, counts);
            },
            (Some(rd), Some(rs1), None, Some(imm)) => {
                let shape = Insn {
                    op: insn.op,
                    rd: Some(rd),
                    rs1: Some(rs1),
                    rs2: None,
                    imm: Some(imm),
                };
                self.add_shape(insn, shape, first, second, counts);
            },
            (None, Some(rs1), Some(rs2), Some(imm)) => {
                let shape = Insn {
                    op: insn.op,
                    rd: None,
                    rs1: Some(rs1),
                    rs2: Some(rs2),
                    imm: Some(imm),
                };
                self.add_shape(insn, shape, first, second, counts);
            },
            _ => self.add_other(*insn, first, second, counts),
        }
    }

    /// Adds one to the counts of the points that an instruction hits whose source registers held
    /// these words before it. Cross points aren't among them. It takes no memory. Each `Caller` has
    /// its own code: where one place calls it, it is compiled into that place.
    #[tactic(auto, using(crate::proofs::Sums::none_to_add))]
    #[inline(always)]
    pub fn add_words<Caller>(&self, insn: &Insn, first: u32, second: u32, counts: &mut [u64])
        requires count { length counts.old ≡ length (aims_in self.now) }
        requires low { All (λ n. n ≤ log_limit) counts.old }
        ensures { counts.new ≡ added (λ a. hits_insn a (Some insn.now) first second)
            (aims_in self.now) counts.old }
    {
        if counts.is_empty() {
            return;
        }
        self.add_shaped::<Caller>(insn, first, second, counts);
    }

    /// Adds one to the counts of the points that an instruction hits whose registers held these
    /// words before it.
    #[inline(always)]
    pub fn add<Caller>(&self, insn: &Insn, before: &Registers, counts: &mut [u64])
        requires count { length counts.old ≡ length (aims_in self.now) }
        requires low { All (λ n. n ≤ log_limit) counts.old }
        ensures { counts.new ≡ added (λ a. hits_insn a (Some insn.now)
            (word_of before.now insn.now.rs1) (word_of before.now insn.now.rs2))
            (aims_in self.now) counts.old }
    {
        let facts = facts_of(insn, before);
        self.add_words::<Caller>(insn, facts.first, facts.second, counts);
    }
}
