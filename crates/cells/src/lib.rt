// A cell is a byte: 8 = TT, 4 = TF, 2 = FT, 1 = FF. Every function takes every byte, so no caller has to test one first: a cell
// is read by these four bits alone, and a permission that is no code is read as FF, as `decoded` has it.
// Bits are quotients and remainders by numerals, since the proofs read these and not masks.
#![tactic(auto)]

ghost use Rattle.std.specs.Prelude.{Bool, ◌≡◌, ◌&&◌, ◌||◌, not, cond, ◌≤◌};
ghost use Rattle.rights.specs.declared.Permission.{Permission as Perm};
ghost use Rattle.rights.specs.Permission.{is_code, decoded, code};
ghost use Rattle.rights.specs.Cell.{cell_of, has as has_record, size as cell_size, union as cell_union, without as cell_without};

use rights::Permission;

// Whether the number is the code of a permission.
// Kept: a number, here and in `has`, since both take every byte.
#[tactic(auto, unfolding(rights::specs::Permission::is_code, rights::specs::Permission::any_permission, rights::specs::Permission::code))]
pub fn is_code(perm: u8) -> bool
    ensures { result ≡ is_code perm }
{
    matches!(perm, 8 | 4 | 2 | 1)
}

// Whether the record of the permission stands in the cell.
#[tactic(auto, unfolding(rights::specs::Cell::has, rights::specs::Permission::code))]
pub fn stands(c: u8, perm: Permission) -> bool
    ensures { result ≡ has_record c perm }
{
    match perm {
        Permission::TT => c / 8 % 2 == 1,
        Permission::TF => c / 4 % 2 == 1,
        Permission::FT => c / 2 % 2 == 1,
        Permission::FF => c % 2 == 1,
    }
}

// Whether the record stands in the cell whose permission the number stands for.
pub fn has(c: u8, perm: u8) -> bool
    ensures { result ≡ has_record c (decoded perm) }
{
    stands(c, Permission::decoded(perm))
}

// The number of a record that is to stand in a cell, and nothing for another.
fn code_if(stands: bool, perm: Permission) -> u8
    ensures value { result ≡ cond stands (code perm) 0 }
    ensures small { result ≤ code perm }
{
    if stands { perm.code() } else { 0 }
}

// The cell of the permissions that pass the test.
fn cell_of<F: Fn(Permission) -> bool>(test: F) -> u8
    requires { F.IsAlwaysCallable test }
    ensures { (passes : Perm → Bool) × ((p : Perm) → F.post test p (passes p)) × (result ≡ cell_of passes) }
{
    code_if(test(Permission::TT), Permission::TT)
        + code_if(test(Permission::TF), Permission::TF)
        + code_if(test(Permission::FT), Permission::FT)
        + code_if(test(Permission::FF), Permission::FF)
}

// The records of either cell.
pub fn union(a: u8, b: u8) -> u8
    ensures { result ≡ cell_union a b }
{
    cell_of(|perm| stands(a, perm) || stands(b, perm))
}

// The records of the first cell that the second lacks.
pub fn without(a: u8, b: u8) -> u8
    ensures { result ≡ cell_without a b }
{
    cell_of(|perm| stands(a, perm) && !stands(b, perm))
}

// How many records stand in the cell.
pub fn size(c: u8) -> u8
    ensures { result ≡ cell_size c }
{
    c / 8 % 2 + c / 4 % 2 + c / 2 % 2 + c % 2
}
