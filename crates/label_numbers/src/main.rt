// Compares `idl_hash` with known label numbers. Writes a line for each name: the name in quotes, the number that `idl_hash` computes,
// and `ok`, or `differs` where the known number is another.
#![tactic(auto)]

use std::io;

// Document 01, P2.
const PAPER: [(&str, u32); 5] = [
    ("", 0),
    ("a", 97),
    ("ab", 21729),
    ("id", 23515),
    ("name", 1224700491),
];

// From memory of public Candid texts and tools, and only memory vouches for them: the cases of a result, in two spellings; and of public
// ledger texts, the fields of an account, and that of an amount.
const REMEMBERED: [(&str, u32); 7] = [
    ("Ok", 17724),
    ("Err", 3456837),
    ("ok", 24860),
    ("err", 5048165),
    ("owner", 947296307),
    ("subaccount", 1349681965),
    ("e8s", 5035232),
];

fn main(rt: HostRuntime) -> io::Result<()> {
    for (name, known) in PAPER.iter().chain(&REMEMBERED) {
        let computed = labels::idl_hash(name.as_bytes());
        let verdict = if computed == *known { "ok" } else { "differs" };
        println!(rt; "\"{name}\" {computed} {verdict}")?;
    }
    Ok(())
}
