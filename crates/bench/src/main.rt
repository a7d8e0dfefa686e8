// How long entering and finding take in the table of identifiers, by number, load and kind of identifiers.
// What was entered and found goes to stdout, and times to stderr, since they differ from run to run.
// Without an argument it does a quick run; with `full`, 100 thousand identifiers, then 8 and 15 million.
#![tactic(auto)]

use idents::ident::Ident;
use index::map::TermIdToIdxMap;
use index::table::term_table;
use keyed::slot::Slot;
use keys::mix::mix;
use std::num::NonZeroU32;
use std::time::{Duration, Instant};
use std::{env, fmt};

const SEED: u64 = 0x9e3779b97f4a7c15;

#[derive(Clone, Copy)]
enum Orders {
    Consecutive,
    Multiples,
    Random,
}

impl Orders {
    fn order(self, i: u32) -> u32 {
        match self {
            Orders::Consecutive => i,
            Orders::Multiples => i.wrapping_mul(128),
            Orders::Random => scattered(i),
        }
    }
}

impl fmt::Display for Orders {
    fn fmt<W: fmt::Write>(&self, f: &mut fmt::Formatter<W>) -> fmt::Result {
        f.write_str(match self {
            Orders::Consecutive => "consecutive orders",
            Orders::Multiples => "multiples of 128",
            Orders::Random => "random orders",
        })
    }
}

// A kind of identifiers: how their orders go, and in how many namespaces, if in any.
#[derive(Clone, Copy)]
struct Kind {
    orders: Orders,
    namespaces: Option<NonZeroU32>,
}

impl Kind {
    // The i-th identifier.
    fn ident(self, i: u32) -> Ident {
        match self.namespaces {
            None => Ident {
                namespace: None,
                order: self.orders.order(i),
            },
            Some(many) => Ident {
                namespace: Some(i % many.get()),
                order: self.orders.order(i / many.get()),
            },
        }
    }
}

impl fmt::Display for Kind {
    fn fmt<W: fmt::Write>(&self, f: &mut fmt::Formatter<W>) -> fmt::Result {
        let namespaces = self.namespaces.map_or(0, |many| many.get());
        write!(f, "{}, {namespaces} namespaces", self.orders)
    }
}

// Each number once, in no visible order.
fn scattered(i: u32) -> u32 {
    let x = (i ^ (i >> 16)).wrapping_mul(0x85ebca6b);
    let y = (x ^ (x >> 13)).wrapping_mul(0xc2b2ae35);
    y ^ (y >> 16)
}

// Enters so many, and answers how many were refused.
fn enter<I: TermIdToIdxMap>(index: &mut I, many: u32, kind: Kind) -> usize {
    (0..many)
        .filter(|i| index.register_term(kind.ident(*i), *i).is_err())
        .count()
}

// Looks so many up, and answers how many were found.
fn find<I: TermIdToIdxMap>(index: &I, first: u32, many: u32, kind: Kind) -> usize {
    (0..many)
        .filter(|i| index.get_term(kind.ident(first.wrapping_add(*i))).is_some())
        .count()
}

// Reads so many slots at random places, each picked by what the one before held, and answers how many were held: what the memory alone
// costs, with one wait for each.
fn touch(slots: &[Slot<Ident, u32>], many: u32) -> usize {
    let n = slots.len();
    if n == 0 {
        return 0;
    }
    (0..many).fold(0usize, |held, i| {
        let at = mix(held as u64, u64::from(i)) as usize % n;
        held.saturating_add(usize::from(slots[at].is_some()))
    })
}

fn each(time: Duration, many: u32) -> u128 {
    if many == 0 {
        0
    } else {
        time.as_nanos() / u128::from(many)
    }
}

// Takes a step, and says what it counted and how long it took.
fn timed<F: FnOnce() -> usize>(rt: &HostRuntime, step: F) -> anyhow::Result<(usize, Duration)>
    requires { F.IsAlwaysCallable step }
{
    let start = Instant::now(rt)?;
    let counted = step();
    Ok((counted, Instant::now(rt)?.duration_since(start)))
}

fn measure(rt: &HostRuntime, many: u32, slots: usize, kind: Kind) -> anyhow::Result<()> {
    let mut row = vec![in rt.alloc(); None; slots]?;
    let mut table = term_table(&mut row, SEED);
    let (refused, entering) = timed(rt, || enter(&mut table, many, kind))?;
    let (found, finding) = timed(rt, || find(&table, 0, many, kind))?;
    let (strange, missing) = timed(rt, || find(&table, many, many, kind))?;
    let held = table.held();
    let (touched, bare) = timed(rt, || touch(&row, many))?;
    println!(rt;
        "{many} in {slots} slots, {kind}: refused {refused}, held {held}, found {found}, of as many others {strange}"
    )?;
    let (entering, finding) = (each(entering, many), each(finding, many));
    let (missing, bare) = (each(missing, many), each(bare, many));
    eprintln!(rt;
        "{many} in {slots} slots, {kind}: enter {entering} ns, find {finding} ns, find none {missing} ns; one slot read {bare} ns, {touched} of them held"
    )?;
    Ok(())
}

fn kinds(rt: &HostRuntime, many: u32, slots: usize) -> anyhow::Result<()> {
    for namespaces in [None, NonZeroU32::new(1), NonZeroU32::new(1000)] {
        for orders in [Orders::Consecutive, Orders::Multiples, Orders::Random] {
            measure(rt, many, slots, Kind { orders, namespaces })?;
        }
    }
    Ok(())
}

fn run(rt: &HostRuntime) -> anyhow::Result<()> {
    if env::args(rt)?.any(|word| word.as_str() == "full") {
        kinds(rt, 100000, 200000)?;
        kinds(rt, 8000000, 16000000)?;
        kinds(rt, 100000, 111112)?;
        kinds(rt, 15000000, 16666667)
    } else {
        kinds(rt, 1000, 2000)?;
        kinds(rt, 1000, 1112)
    }
}

fn main(rt: HostRuntime) -> anyhow::Result<()> {
    run(&rt)
}
