// Puts holding questions to small registers, and writes each answer, the number of offices and the whole chain buffer.
// The questions are case 8 of document 01, chains that are easy to pick wrongly, and one question for each refusal.
#![tactic(auto)]

use rights::Permission::{FF, FT, TF, TT};
use rights::{Header, Layer, Office, Permission};
use std::io;

// 0→1 TT, 0→3 TF, 1→2 TT, 2→4 TT, 3→2 TF: map A of document 01.
const A: [u8; 25] = [
    0, 8, 0, 4, 0, //
    0, 0, 8, 0, 0, //
    0, 0, 0, 0, 8, //
    0, 0, 4, 0, 0, //
    0, 0, 0, 0, 0,
];

// 0→3 TF, 2→4 TF, 3→2 TF: what case 1 leaves of it.
const LEFT: [u8; 25] = [
    0, 0, 0, 4, 0, //
    0, 0, 0, 0, 0, //
    0, 0, 0, 0, 4, //
    0, 0, 4, 0, 0, //
    0, 0, 0, 0, 0,
];

// 0→1, 0→2, 1→4, 2→3, 4→5, 3→5, all TT: the smaller office next to 5 is on the larger chain.
const CROSSED: [u8; 36] = [
    0, 8, 8, 0, 0, 0, //
    0, 0, 0, 0, 8, 0, //
    0, 0, 0, 8, 0, 0, //
    0, 0, 0, 0, 0, 8, //
    0, 0, 0, 0, 0, 8, //
    0, 0, 0, 0, 0, 0,
];

// 0→1 TF, 1→2 TF, 0→2 FF, 2→3 FF: office 2 passes FF on by its TF alone, so 0, 2, 3 is no chain.
const WEAK: [u8; 16] = [
    0, 4, 1, 0, //
    0, 0, 4, 0, //
    0, 0, 0, 1, //
    0, 0, 0, 0,
];

// 1→2 TT, of an office that holds nothing.
const UNSOUND: [u8; 9] = [
    0, 0, 0, //
    0, 0, 8, //
    0, 0, 0,
];

const EMPTY: [u8; 49] = [0u8; 49];

// A register's cells and how many offices its header says, the office asked for, and the number of the permission.
// Kept: a number for the permission, since `holding` takes every number and one question asks for 3, which is none.
type Question<'a> = (&'a [u8], u16, u16, u8);

// A question to a register whose SOA is office 0. No office here is 9, so a byte that stays is seen to stay.
fn ask(rt: &impl Print, (cells, n, office, perm): Question<'_>) -> io::Result<()> {
    let header = Header {
        n,
        soa: Office(0),
        layer: Layer(7),
    };
    let mut chain = [9u8; 6];
    let held = questions::holding(cells, header, Office(office), perm, &mut chain);
    print!(rt;
        "answer={} offices={} chain={}",
        held.answer, held.offices, chain[0]
    )?;
    for next in &chain[1..] {
        print!(rt; ",{next}")?;
    }
    println!(rt)
}

// Case 8 of document 01, and chains that are easy to pick wrongly.
fn ask_for_chains(rt: &impl Print) -> io::Result<()> {
    let questions: [Question<'_>; 6] = [
        (&A, 5, 4, TF.code()),
        (&A, 5, 0, TT.code()),
        (&A, 5, 3, FT.code()),
        (&LEFT, 5, 4, TF.code()),
        (&CROSSED, 6, 5, TT.code()),
        (&WEAK, 4, 3, FF.code()),
    ];
    for question in questions {
        ask(rt, question)?;
    }
    Ok(())
}

// SOA is its own chain for every permission.
fn ask_soa(rt: &impl Print, cells: &[u8], n: u16) -> io::Result<()> {
    for perm in Permission::ALL {
        ask(rt, (cells, n, 0, perm.code()))?;
    }
    Ok(())
}

// One question for each refusal, in their order.
fn ask_refused(rt: &impl Print) -> io::Result<()> {
    let questions: [Question<'_>; 7] = [
        (&A, 1, 4, TF.code()),
        (&A, 4, 4, TF.code()),
        (&UNSOUND, 3, 2, TT.code()),
        (&A, 5, 4, 3),
        (&A, 5, 5, TF.code()),
        (&EMPTY, 7, 0, TF.code()),
        (&A, 5, 3, FT.code()),
    ];
    for question in questions {
        ask(rt, question)?;
    }
    Ok(())
}

fn main(rt: HostRuntime) -> io::Result<()> {
    ask_for_chains(&rt)?;
    ask_soa(&rt, &A, 5)?;
    ask_soa(&rt, &EMPTY[..9], 3)?;
    ask_refused(&rt)
}
