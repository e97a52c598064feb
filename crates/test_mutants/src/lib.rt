//! Counterexamples to mutants in functions whose proofs are written by hand. Each law has the name of its mutant. At an
//! example with small values it says that the right answer meets the function's clause, and that the mutant's does not.
//! This crate has no executable code.
#![tactic(auto)]

ghost use Rattle.std.specs.Prelude.{false, true, None};
ghost use Rattle.test_mutants.specs.Coverage.{IsCoverage, parts, whole};
ghost use Rattle.test_mutants.specs.Keys.{NeighboursAnswer, RemovedAnswer};
ghost use Rattle.test_mutants.specs.Lookups.{IsAccess, by_key};

/// The periods from 1 to 3 and from 4 to 6 do not cover the period from 1 to 6.
pub fn coverage_with_gap()
    ensures right { IsCoverage parts whole false }
    ensures mutant { IsCoverage parts whole true → ⊥ }
{}

/// A new row that shares a point with a removed row and with one that stays is not free.
pub fn key_checks_one_neighbour()
    ensures right { NeighboursAnswer false }
    ensures mutant { NeighboursAnswer true → ⊥ }
{}

/// A new row that clashes with a removed row alone is free.
pub fn rows_that_go_still_clash()
    ensures right { RemovedAnswer true }
    ensures mutant { RemovedAnswer false → ⊥ }
{}

/// An equality after a calculation is not looked up: the calculation may be out of range on any row.
pub fn lookup_behind_a_calculation()
    ensures right { IsAccess None }
    ensures mutant { IsAccess by_key → ⊥ }
{}
