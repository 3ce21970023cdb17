// What a cell carries as a link of a chain, which level its grantor needs, and what a level leaves of it. Every function takes every
// byte, read as in `cells`.
#![tactic(auto)]

ghost use Rattle.std.specs.Prelude.{◌≡◌, leb};
ghost use Rattle.rights.specs.Permission.{need, decoded};
ghost use Rattle.rights.specs.Cell.{carries as cell_carries, restrict as restrict_cell};

use rights::Permission;

// Whether a link with this cell can be read as the permission: it, or something stronger, stands there.
pub fn carries_as(c: u8, perm: Permission) -> bool
    ensures { result ≡ cell_carries c perm }
{
    match perm {
        Permission::TT => c / 8 % 2 == 1,
        Permission::TF => c / 4 % 4 != 0,
        Permission::FT => c / 8 % 2 + c / 2 % 2 != 0,
        Permission::FF => c % 16 != 0,
    }
}

// Whether such a link can be read as the permission that the number stands for.
// Kept: a number for the permission, here and in `enough`, since both take every byte.
pub fn carries(c: u8, perm: u8) -> bool
    ensures { result ≡ cell_carries c (decoded perm) }
{
    carries_as(c, Permission::decoded(perm))
}

// The level that a grantor of the permission has.
#[tactic(auto, unfolding(rights::specs::Permission::need))]
fn needed(perm: Permission) -> u8
    ensures { result ≡ need perm }
{
    match perm {
        Permission::TT | Permission::FT => 2,
        Permission::TF | Permission::FF => 1,
    }
}

// Whether a grantor of this level may grant the permission.
pub fn suffices(level: u8, perm: Permission) -> bool
    ensures { result ≡ leb (need perm) level }
{
    needed(perm) <= level
}

// Whether a grantor of this level may grant the permission that the number stands for.
pub fn enough(perm: u8, level: u8) -> bool
    ensures { result ≡ leb (need (decoded perm)) level }
{
    suffices(level, Permission::decoded(perm))
}

// What a level leaves of the cell: nothing at 0, TF and FF alone at 1, all of it from 2 on. A record that is lowered merges with its
// equal, so two bits make one.
// Kept: a number for a level, which is compared, and of which any byte is taken.
pub fn restrict(c: u8, level: u8) -> u8
    ensures { result ≡ restrict_cell c level }
{
    match level {
        0 => 0,
        1 => (c / 4 % 4).min(1) * 4 + (c % 4).min(1),
        _ => c,
    }
}
