//! Atoms of cuts, over both stores.

ghost use Rattle.std.specs.Prelude.{◌≡◌, ◌<◌, ◌≤◌, length};
ghost use Rattle.std.specs.List.{All};
ghost use Rattle.np_region.specs.Keeping.{EachFits};

use np_atomizer::Atomizer;
use np_atoms::Atoms;
use np_bdd::Diagrams;
use np_region::BlockLists;
use np_space::{Block, Span, is_valid, valid_blocks};
use std::alloc::{AllocError, Global};
use std::process::Abort;
use std::test::Fail;

// An atom as a line: the fields of its least member, and what each cut answers.
fn line(alloc: Global, atoms: &Atoms, n: usize) -> Result<String, AllocError>
    requires atom { n < length atoms.now.leasts }
    requires sets { All (λ set. length set ≡ length atoms.now.leasts) atoms.now.cuts }
{
    let h = atoms.leasts.as_slice()[n];
    let est = u8::from(h.est);
    let mut text = format!(in alloc;
        "{} {} {} {} {} {est} {} ",
        h.src, h.dst, h.proto, h.a, h.b, h.dscp
    )?;
    for cut in atoms.cuts.as_slice() {
        text.push_str(if cut.has(n) { "1" } else { "0" })?;
    }
    Ok(text)
}

// Each atom's line; "!" after one whose least member is not found in the atom itself, or is not the
// least of its region.
fn table<S: Atomizer>(alloc: Global, store: &mut S, cuts: &[S::R]) -> Result<String, AllocError>
    requires { EachFits S.fits store.old cuts.now }
{
    let made = store.atomize(alloc, cuts)?;
    let mut text = String::new(alloc);
    for n in 0..made.atoms.leasts.len() {
        text.push_str(line(alloc, &made.atoms, n)?.as_str())?;
        let least = made.atoms.leasts.as_slice()[n];
        let found = is_valid(&least) && store.atom_of(&made.classes, &least) == n;
        let region = store.region(alloc, &made.classes, n)?;
        let own = store.least(&region) == Some(least);
        if !found || !own {
            text.push_str("!")?;
        }
        text.push_str("\n")?;
    }
    Ok(text)
}

// The block's part with this source port or type, and this destination port or code.
fn at(block: &Block, a: u16, b: u16) -> Block {
    let mut part = *block;
    part.a = Span::only(a);
    part.b = Span::only(b);
    part
}

// The block's part with these code points.
fn marked(block: &Block, low: u16, high: u16) -> Block
    requires ordered { low ≤ high }
    requires width { high ≤ 63 }
{
    let mut part = *block;
    part.dscp = Span { low, high };
    part
}

// The atoms of the valid headers in two blocks.
fn of_blocks<S: Atomizer>(
    alloc: Global,
    store: &mut S,
    x: &Block,
    y: &Block,
) -> Result<String, AllocError> {
    let first = store.of_block(x)?;
    let second = store.of_block(y)?;
    let mut cuts = Vec::new(alloc);
    cuts.push(first)?;
    cuts.push(second)?;
    table(alloc, store, &cuts)
}

// The atoms of all valid headers but those in a block, and of those in it.
fn of_rest_and_block<S: Atomizer>(
    alloc: Global,
    store: &mut S,
    block: &Block,
) -> Result<String, AllocError> {
    let whole = store.whole()?;
    let part = store.of_block(block)?;
    let rest = store.minus(&whole, &part)?;
    let mut cuts = Vec::new(alloc);
    cuts.push(rest)?;
    cuts.push(part)?;
    table(alloc, store, &cuts)
}

// The atoms of no header, and of all valid ones.
fn of_none_and_whole<S: Atomizer>(alloc: Global, store: &mut S) -> Result<String, AllocError> {
    let none = store.none();
    let whole = store.whole()?;
    let mut cuts = Vec::new(alloc);
    cuts.push(none)?;
    cuts.push(whole)?;
    table(alloc, store, &cuts)
}

// What is over every store.
fn atoms_of_cuts<R: Abort, S: Atomizer>(rt: &R, alloc: Global, store: &mut S) -> Result<(), Fail> {
    let [_, icmp, _, tcp, _, _, _] = valid_blocks();
    assert_eq!(rt; table(alloc, store, &[])?.as_str(), "0 0 0 0 0 0 0 \n");
    assert_eq!(rt;
        of_rest_and_block(alloc, store, &tcp)?.as_str(),
        "0 0 0 0 0 0 0 10\n0 0 6 0 0 0 0 01\n"
    );
    assert_eq!(rt;
        of_blocks(alloc, store, &at(&icmp, 3, 4), &icmp)?.as_str(),
        "0 0 0 0 0 0 0 00\n0 0 1 0 0 0 0 01\n0 0 1 3 4 0 0 11\n"
    );
    assert_eq!(rt;
        of_none_and_whole(alloc, store)?.as_str(),
        "0 0 0 0 0 0 0 01\n"
    );
    assert_eq!(rt;
        of_blocks(alloc, store, &marked(&tcp, 40, 47), &marked(&tcp, 46, 46))?.as_str(),
        "0 0 0 0 0 0 0 00\n0 0 6 0 0 0 40 10\n0 0 6 0 0 0 46 11\n"
    );
    Ok(())
}

#[test]
fn atoms_over_block_lists(rt: HostRuntime) -> Result<(), Fail> {
    atoms_of_cuts(&rt, rt.alloc(), &mut BlockLists::new(rt.alloc()))
}

#[test]
fn atoms_over_diagrams(rt: HostRuntime) -> Result<(), Fail> {
    let mut store = Diagrams::new(rt.alloc())?;
    atoms_of_cuts(&rt, rt.alloc(), &mut store)
}
