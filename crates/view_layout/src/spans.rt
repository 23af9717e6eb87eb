// What columns and rows take up, and where their plots begin.
ghost use Rattle.std.specs.Prelude.{◌≡◌, ◌<◌, [], take, drop, IfOk};
ghost use Rattle.view_layout.specs.Grid.{larger, greatest, whole, every, columns_of, rows_of, positions, extent};

use crate::lengths::plus;
use std::alloc::Global;
use text_kit::{OutOfMemory, Seq};

/// What a cell, a column or a row takes up in one direction, in millionths of a pixel.
#[derive(Clone, Copy)]
pub struct Span {
    /// The extent before the plot.
    pub before: u128,
    /// The plot's size with the extent behind it.
    pub behind: u128,
}

/// What takes up nothing.
pub fn nothing() -> Span
    ensures { result ≡ greatest [] }
{
    Span {
        before: 0,
        behind: 0,
    }
}

// The greater extents of two spans.
fn larger(a: Span, b: Span) -> Span
    ensures { result ≡ larger a b }
{
    Span {
        before: a.before.max(b.before),
        behind: a.behind.max(b.behind),
    }
}

/// What a span takes up from edge to edge.
pub fn whole(span: Span) -> u128
    ensures { result ≡ whole span }
{
    plus(span.before, span.behind)
}

// The greatest extents of some spans.
fn greatest(spans: &[Span]) -> Span
    ensures { result ≡ greatest spans.now }
{
    let mut found = nothing();
    for span in spans {
        found = larger(found, *span);
    }
    found
}

// The first `n` spans, all where there are fewer.
fn front(spans: &[Span], n: usize) -> &[Span]
    ensures { result.now ≡ take n spans.now }
{
    if n < spans.len() { &spans[..n] } else { spans }
}

// The spans behind the first `n`, none where there are fewer.
fn behind(spans: &[Span], n: usize) -> &[Span]
    ensures { result.now ≡ drop n spans.now }
{
    if n < spans.len() { &spans[n..] } else { &[] }
}

// The greatest extents of the spans that stand `n` apart, from the first on.
fn greatest_apart(spans: &[Span], n: usize) -> Span
    requires { 0 < n }
    ensures { result ≡ greatest (every n 0 spans.now) }
{
    let mut found = nothing();
    let mut rest = spans;
    while let [first, ..] = rest {
        found = larger(found, *first);
        rest = behind(rest, n);
    }
    found
}

/// The columns of a grid of `n` columns.
pub fn columns_of(alloc: Global, spans: &[Span], n: usize) -> Result<Seq<Span>, OutOfMemory>
    requires { 0 < n }
    ensures { IfOk result (λ found. found ≡ columns_of n spans.now) }
{
    let mut out = Seq::new(alloc);
    for k in 0..n.min(spans.len()) {
        out.push(greatest_apart(behind(spans, k), n))?;
    }
    Ok(out)
}

/// The rows of a grid of `n` columns.
pub fn rows_of(alloc: Global, spans: &[Span], n: usize) -> Result<Seq<Span>, OutOfMemory>
    requires { 0 < n }
    ensures { IfOk result (λ found. found ≡ rows_of n spans.now) }
{
    let mut out = Seq::new(alloc);
    let mut rest = spans;
    while let [_, ..] = rest {
        out.push(greatest(front(rest, n)))?;
        rest = behind(rest, n);
    }
    Ok(out)
}

/// Where the plots of columns or rows begin, the first span beginning at `from`.
pub fn positions(
    alloc: Global,
    from: u128,
    gap: u128,
    spans: &[Span],
) -> Result<Seq<u128>, OutOfMemory>
    ensures { IfOk result (λ found. found ≡ positions from gap spans.now) }
{
    let mut out = Seq::with_capacity(alloc, spans.len())?;
    let mut passed = 0;
    for span in spans {
        out.push(plus(passed, plus(from, span.before)))?;
        passed = plus(passed, plus(whole(*span), gap));
    }
    Ok(out)
}

/// How far columns or rows reach, with the gaps between them.
pub fn extent(gap: u128, spans: &[Span]) -> u128
    ensures { result ≡ extent gap spans.now }
{
    let [first, others @ ..] = spans else {
        return 0;
    };
    let mut end = whole(*first);
    for span in others {
        end = plus(end, plus(gap, whole(*span)));
    }
    end
}
