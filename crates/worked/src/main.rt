// The scope paper's runs (b) to (h) on the words of a store for nine items. Of each run: its name, the answers of its
// lines, the row of heap 0, and all words as they lie: a line for each heap, then a line for each item.
#![tactic(auto)]

ghost use Rattle.std.specs.Prelude.{◌+◌, ◌≤◌};
ghost use Rattle.rules.specs.Words.{store_size};
ghost use Rattle.store.specs.Says.{Sized};

use rules::{Field, Refusal};
use sheet::{Ran, run_fresh, run_kept};
use std::io;
use store::get;

// A number, and a byte after it.
fn print(rt: &impl Print, x: u32, end: u8) -> io::Result<()> {
    rt.print(x)?;
    rt.write_all(&[end])
}

// The row of heap 0, on a line of its own.
fn show_row(rt: &impl Print, s: &[u32]) -> io::Result<()>
    requires { Sized 9 s.now }
{
    let mut x = get(s, 9, Field::FirstTree, 0);
    for _ in 0..9 {
        if x >= 9 {
            break;
        }
        print(rt, x, b' ')?;
        x = get(s, 9, Field::Next, x);
    }
    rt.write_all(b"\n")
}

// So many words from a place on, as they lie, on a line.
fn show_line(rt: &impl Print, s: &[u32], from: usize, words: usize) -> io::Result<()>
    requires sized { Sized 9 s.now }
    requires le_words { 1 ≤ words }
    requires words_bound { from + words ≤ store_size 9 }
{
    let last = from + words - 1;
    for p in from..last {
        print(rt, s[p], b' ')?;
    }
    print(rt, s[last], b'\n')
}

// The five words of each heap, a line for each.
fn show_heaps(rt: &impl Print, s: &[u32]) -> io::Result<()>
    requires { Sized 9 s.now }
{
    for h in 0..8 {
        show_line(rt, s, 5 * h, 5)?;
    }
    Ok(())
}

// The eight words of each item, a line for each.
fn show_items(rt: &impl Print, s: &[u32]) -> io::Result<()>
    requires { Sized 9 s.now }
{
    for i in 0..9 {
        show_line(
            rt,
            s,
            store::HEAP_WORDS + store::ITEM_WORDS * i,
            store::ITEM_WORDS,
        )?;
    }
    Ok(())
}

// What a run answered and left, under its name.
fn show(
    rt: &impl Print,
    name: u8,
    ran: Result<Ran, Refusal>,
    store: &[u32],
    out: &[u8],
) -> io::Result<()>
    requires { Sized 9 store.now }
{
    rt.write_all(&[name, b'\n'])?;
    if let Ok(ran) = ran {
        rt.write_all(out.get(..ran.bytes as usize).unwrap_or(&[]))?;
    }
    show_row(rt, store)?;
    show_heaps(rt, store)?;
    show_items(rt, store)
}

// (f), (g) and (h) go on, each on the store that the run before it left.
fn main(rt: HostRuntime) -> io::Result<()> {
    let mut store = [0u32; store::HEAP_WORDS + store::ITEM_WORDS * 9];
    let mut out = [0u8; 512];
    let b = b"I,0,0,5\nI,0,1,3\nI,0,2,8\nI,0,3,1\nT,0\n";
    let c = b"I,0,0,5\nI,0,1,3\nI,0,2,8\nI,0,3,1\nT,0\nD,0,4\n";
    let d = b"I,0,0,5\nI,0,1,3\nI,0,2,8\nI,0,3,1\nT,0\nD,0,3\n";
    let e =
        b"I,0,0,0\nI,0,1,10\nI,0,2,20\nI,0,3,30\nI,0,4,40\nI,0,5,50\nI,0,6,60\nI,0,7,70\nI,0,8,80\nT,0\n";
    for (name, sheet) in [
        (b'b', &b[..]),
        (b'c', &c[..]),
        (b'd', &d[..]),
        (b'e', &e[..]),
    ] {
        let ran = run_fresh(&mut store, sheet, &mut out);
        show(&rt, name, ran, &store, &out)?;
    }
    let f = b"D,8,5\nD,6,4\nD,7,3\n";
    for (name, sheet) in [(b'f', &f[..]), (b'g', &b"X,3\n"[..]), (b'h', &b"T,0\n"[..])] {
        let ran = run_kept(&mut store, sheet, &mut out);
        show(&rt, name, ran, &store, &out)?;
    }
    Ok(())
}
