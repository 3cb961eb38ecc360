// What first choices are, and how many evaluations some points take at most.
ghost use Rattle.std.specs.Prelude.{◌≡◌, [], ◌∷◌, map, Some, None};
ghost use Rattle.rvs_insn.specs.declared.op.Format.TheVariants.{System};
ghost use Rattle.rvs_insn.specs.declared.op.Op as mnemonic;
ghost use Rattle.rvs_insn.specs.declared.op.Op.TheVariants.{Add};
ghost use Rattle.rvs_insn.specs.Isa.{Isa};
ghost use Rattle.rvs_insn.specs.Table.{row};
ghost use Rattle.rvs_points.specs.declared.group.Kind.TheVariants.{Mnemonic};
ghost use Rattle.rvs_points.specs.Points.{op_is};
ghost use Rattle.rvs_solver.specs.First.{first_choice};
ghost use Rattle.rvs_solver.specs.Least.{least};
ghost use Rattle.rvs_solver.specs.Bound.{first_registers};
ghost use Rattle.rvs_solver.specs.Rows.{rows, bound_of_row, most_of};
ghost use Rattle.rvs_solver.specs.SomePoints.{AtAddress, AtNoAddress, LastRegister, NoRegister};

/// The point on a mnemonic takes the first registers of its format, each with its least word.
pub fn mnemonics_take_the_first_registers()
    ensures any { (spec : Isa) (op : mnemonic.Op) → ((row op).form ≡ System → ⊥)
        → first_choice spec (op ∷ []) Mnemonic (op_is op)
        ≡ Some (least spec.memory op (row op).form (first_registers (row op).form)) }
    ensures add { (spec : Isa) → first_choice spec (Add ∷ []) Mnemonic (op_is Add) ≡ Some (record {
      op = Add;
      rd = Some 1;
      rs1 = Some 2;
      rs2 = Some 3;
      imm = None;
      align = 0;
      w1 = 1;
      w2 = 1;
    }) }
{}

/// Of values, of registers, of stores with and without their own address, and of an immediate
/// out of reach.
pub fn bounds_of_some_points()
    ensures { map bound_of_row rows ≡ map most_of rows }
{}

/// `amoadd.w` has the address of scratch in `rs1`, and nothing else; and of a core with 16
/// registers `x15` is the last.
pub fn first_choices_of_some_points()
    ensures address { AtAddress }
    ensures other { AtNoAddress }
    ensures last { LastRegister }
    ensures none { NoRegister }
{}
