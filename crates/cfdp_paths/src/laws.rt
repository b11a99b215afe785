//! Laws of octets and paths, for every value. Each function has an empty body: what it says is its contract.

ghost use Rattle.cfdp_paths.specs.Laws.{SpellsOnePath, PathOfAgrees, FaultOrPath, IsReflexive, IsTransitive, IsAntisymmetric, PrefixesAreComparable, AncestorsAreAbove, ParentIsAbove, ComesFirst, RebasedKeepsRest};

/// Octets spell at most one path.
pub fn spells_one_path()
    ensures { SpellsOnePath }
{}

/// `path_of` is the path that the octets spell, where they spell one.
pub fn path_of_agrees()
    ensures { PathOfAgrees }
{}

/// Octets have a fault exactly where they spell no path.
pub fn fault_or_path()
    ensures { FaultOrPath }
{}

/// To be at or below is reflexive, transitive and antisymmetric, and two prefixes of one path are comparable.
pub fn at_or_below_is_a_tree()
    ensures reflexive { IsReflexive }
    ensures transitive { IsTransitive }
    ensures antisymmetric { IsAntisymmetric }
    ensures comparable { PrefixesAreComparable }
{}

/// A path's ancestors are exactly what it is strictly below, the root apart.
pub fn ancestors_are_above()
    ensures { AncestorsAreAbove }
{}

/// A path is strictly below its parent, and nothing is between the two.
pub fn parent_is_above()
    ensures { ParentIsAbove }
{}

/// A path is before all that is strictly below it.
pub fn comes_first()
    ensures { ComesFirst }
{}

/// What is at p/r is at q/r once it is rebased from p to q.
pub fn rebased_keeps_rest()
    ensures { RebasedKeepsRest }
{}
