// The spans of each place as a range of span numbers, found once for a whole search.
ghost use Rattle.std.specs.Prelude.{◌+◌};
ghost use Rattle.spans.specs.Range.{Sorted, FirstSpan, Indexable, IsIndex};

// A word for each of at most 4,096 places, and one that ends the spans of the last.
pub type Index = [u32; 4097];

// The number of the first span that leaves a place higher than u; `first` is that of u or a higher place.
fn pass_spans(from: &[u32], u: u32, first: usize) -> usize
    requires sorted { Sorted from.now }
    requires first_span { FirstSpan from.now u first }
    ensures { FirstSpan from.now (u + 1) result }
{
    // No `for` with a return in it: with that, `feed_budget` of budget 0 takes 4 hundredths longer.
    let mut e = first;
    while e < from.len() && from[e] <= u {
        e += 1;
    }
    e
}

// For each place u, and for u = places, the number of the first span that leaves place u or a higher one.
pub fn index_spans(places: u32, from: &[u32], index: &mut Index)
    requires { Indexable places from.now index.old }
    ensures { IsIndex places from.now index.new }
{
    index[0] = 0;
    let mut e = 0;
    for u in 0..places {
        e = pass_spans(from, u, e);
        index[u as usize + 1] = e as u32;
    }
}
