// What a table of alias ends has for a name, in one number: CROSSED for each name crossed, and how far the node at which the chain ends is below
// 65,535; or NONE or OPEN. So a table that has nothing is 0 throughout, which is made fastest.
// No enum: none, open, or a node and a count take 6 bytes for these 4, in a table 2 KiB more. No newtype: tables are lent as numbers, and a narrower
// type would ask more of who has them; sums and differences by CROSSED (`follow`, `note`) would take it off besides.
ghost use Rattle.std.specs.Prelude.{◌≡◌, ◌+◌, ◌-◌, ◌/◌, ◌<◌};
ghost use Rattle.environment.specs.Tables.{end_of};

pub(crate) const CROSSED: u32 = 65536;

// No node: of a name without definition, which crosses none.
pub const NONE: u32 = 0;

// An end that is not known yet, in a table that is being made. No node is so close to 65,535.
pub(crate) const OPEN: u32 = 1;

// Of a name whose definition stands at this root, and is no name.
pub(crate) fn at(root: usize) -> u32
    requires { root < 4096 }
    ensures { result ≡ 65535 - root + 65536 }
{
    65535 - root as u32 + CROSSED
}

// The node at which the chain ends.
pub(crate) fn node(end: u32) -> Option<u16>
    ensures { result ≡ end_of end }
{
    let below = end % CROSSED;
    if below == NONE {
        None
    } else {
        Some((65535 - below) as u16)
    }
}

// How many names it crosses.
pub(crate) fn crossed(end: u32) -> u16
    ensures { result ≡ end / 65536 }
{
    (end / CROSSED) as u16
}
