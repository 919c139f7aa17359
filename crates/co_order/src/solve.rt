//! The search for an answer.
ghost use Rattle.std.specs.Prelude.{IfOk, IfSome};
ghost use Rattle.co_order.specs.Answer.{IsAnswer, IsSettled};

use crate::answer::{Answer, Told, by_order, by_refutation, by_repeat};
use crate::build::Build;
use crate::cycle::least_cycle;
use crate::digest::{Digest, Digested, Read, digest_of};
use crate::graph::{Edge, components};
use crate::knot::{MOST_OF_KNOT, Searched, search_knot};
use crate::line::Line;
use crate::lists::{number_at, put_at, zeros};
use crate::odd::Odd;
use crate::replies::value_told;
use crate::sorting::{ranked_edges, ranked_nodes, sorted};
use crate::source::Source;
use crate::text::lines_text;
use crate::web::{Web, web_of};
use co_check::Committed;
use co_order_check::{Refutation, Repeat};
use std::alloc::{AllocError, Global};

/// How often the order of blocks is mended by the knots.
const MOST_ROUNDS: usize = 8;

/// The most operations that are looked up for a refutation, over all reads that it cites.
const MOST_LOOKED_UP: usize = 3_000_000_000;

/// The places of the transactions in the order of decisions.
fn recorded(alloc: Global, history: &[Committed]) -> Result<Vec<usize>, AllocError> {
    let mut order = Vec::new(alloc);
    for place in 0..history.len() {
        order.push(place)?;
    }
    Ok(order)
}

/// Tells whether the committed transactions, the first decided one first, run serially in some order, or why in none.
pub fn answer_to(alloc: Global, history: &[Committed]) -> Result<Answer, AllocError>
    ensures { IfOk result (IsAnswer history.now) }
{
    let order = recorded(alloc, history)?;
    if let Some(answer) = by_order(alloc, history, order)? {
        return Ok(answer);
    }
    match digest_of(alloc, history)? {
        Digested::Odd(odd) => by_odd(alloc, history, odd),
        Digested::Made(digest) => {
            let web = web_of(alloc, digest)?;
            search(alloc, history, &web)
        }
    }
}

/// Answers by what one transaction was told.
fn by_odd(alloc: Global, history: &[Committed], odd: Odd) -> Result<Answer, AllocError>
    ensures { IfOk result (IsAnswer history.now) }
{
    let txn = match history.get(odd.txn) {
        Some(committed) => committed.txn.0,
        None => 0,
    };
    let line = odd.line;
    let told = match &odd.why {
        Refutation::Unwritten(_) => Told::Unwritten { txn, line },
        _ => Told::Torn { txn, line },
    };
    by_refutation(alloc, history, &odd.why, told)
}

/// How many operations there are.
fn operations(history: &[Committed]) -> usize {
    let mut count = 0usize;
    for committed in history {
        count = count.saturating_add(committed.told.len());
    }
    count
}

/// Answers by a refutation that was built.
fn by_build(
    alloc: Global,
    history: &[Committed],
    build: Build<'_, '_>,
    lines: &[Line],
) -> Result<Answer, AllocError>
    ensures { IfOk result (IsAnswer history.now) }
{
    if build.cited.saturating_mul(operations(history)) > MOST_LOOKED_UP {
        return Ok(Answer::Undecided);
    }
    let text = lines_text(alloc, lines, build.web.digest.numbers.as_slice())?;
    let Build { steps, .. } = build;
    by_refutation(alloc, history, &Refutation::Steps(steps), Told::Lines(text))
}

/// Nothing is built yet.
fn fresh<'h, 'w>(alloc: Global, history: &'h [Committed], web: &'w Web) -> Build<'h, 'w> {
    Build {
        alloc,
        history,
        web,
        steps: Vec::new(alloc),
        known: 0,
        cited: 0,
    }
}

/// Answers by a cycle of which two lines force each edge.
fn by_cycle(
    alloc: Global,
    history: &[Committed],
    web: &Web,
    cycle: Vec<usize>,
) -> Result<Answer, AllocError>
    ensures { IfOk result (IsAnswer history.now) }
{
    let mut build = fresh(alloc, history, web);
    let mut lines = Vec::new(alloc);
    let mut befores = Vec::new(alloc);
    let mut ring = Vec::new(alloc);
    for at in 0..cycle.len() {
        let next = if at.saturating_add(1) < cycle.len() {
            at.saturating_add(1)
        } else {
            0
        };
        let one = number_at(cycle.as_slice(), at);
        let other = number_at(cycle.as_slice(), next);
        let forced = match web.forced(one, other) {
            Some(forced) => forced,
            None => return Ok(Answer::Undecided),
        };
        match build.two_lines(one, other, forced.why)? {
            Some(known) => ring.push(known)?,
            None => return Ok(Answer::Undecided),
        }
        befores.push(Line::Before(one, other, forced.first, forced.second))?;
    }
    build.shut(ring.as_slice())?;
    lines.push(Line::Cycle(cycle))?;
    for before in befores {
        lines.push(before)?;
    }
    by_build(alloc, history, build, lines.as_slice())
}

/// Answers by what follows from what the transactions did.
fn search(alloc: Global, history: &[Committed], web: &Web) -> Result<Answer, AllocError>
    ensures { IfOk result (IsAnswer history.now) }
{
    let count = web.digest.count();
    let edges = web.edges(alloc)?;
    if let Some(cycle) = least_cycle(alloc, count, web.nodes(), edges.as_slice())? {
        return by_cycle(alloc, history, web, cycle);
    }
    drop(edges);
    let mut ranks = web.digest.places.clone()?;
    let mut lastly = false;
    for round in 0..MOST_ROUNDS {
        let ranked = ranked_edges(alloc, web, ranks.as_slice())?;
        let nodes = ranked_nodes(web);
        let order = sorted(alloc, count, nodes, ranked.as_slice(), ranks.as_slice())?;
        if order.len() == count {
            lastly = true;
            if let Some(answer) = by_ids(alloc, history, web, order.as_slice())? {
                return Ok(answer);
            }
            break;
        }
        drop(order);
        let settled = settle_knots(
            alloc,
            history,
            web,
            ranked.as_slice(),
            nodes,
            round,
            &mut ranks,
        )?;
        match settled {
            Settled::Answer(answer) => return Ok(answer),
            Settled::Further => {}
            Settled::Open => break,
        }
    }
    if count <= MOST_OF_KNOT && !lastly {
        let mut all = Vec::new(alloc);
        for txn in 0..count {
            all.push(txn)?;
        }
        let mut build = fresh(alloc, history, web);
        let found = search_knot(alloc, &mut build, all.as_slice(), ranks.as_slice())?;
        match found {
            Searched::Refuted(lines) => return by_build(alloc, history, build, lines.as_slice()),
            Searched::Order(order) => {
                if let Some(answer) = by_ids(alloc, history, web, order.as_slice())? {
                    return Ok(answer);
                }
            }
            Searched::Open => {}
        }
    }
    repeated(history, web)
}

/// Answers with an order by the numbers of the digest.
fn by_ids(
    alloc: Global,
    history: &[Committed],
    web: &Web,
    order: &[usize],
) -> Result<Option<Answer>, AllocError>
    ensures { IfOk result (λ found. IfSome found (IsAnswer history.now)) }
{
    let mut places = Vec::new(alloc);
    for txn in order {
        places.push(number_at(web.digest.places.as_slice(), *txn))?;
    }
    by_order(alloc, history, places)
}

/// What comes of the knots.
#[derive(Drop)]
enum Settled {
    /// One of them has no order.
    Answer(Answer),
    /// Each has one, by which the ranks were changed.
    Further,
    /// One was not settled.
    Open,
}

/// A knot with the first writers of the blocks in which its transactions stand, and theirs, so many steps; as many as a knot may have.
fn grown(alloc: Global, web: &Web, ids: &[usize], steps: usize) -> Result<Vec<usize>, AllocError> {
    let mut knot = Vec::from_slice(alloc, ids)?;
    for _ in 0..steps {
        let more = web.with_roots(alloc, knot.as_slice())?;
        if more.len() == knot.len() || more.len() > MOST_OF_KNOT {
            break;
        }
        knot = more;
    }
    Ok(knot)
}

/// Searches each knot of the edges by itself, grown by so many steps, and ranks its transactions anew.
fn settle_knots(
    alloc: Global,
    history: &[Committed],
    web: &Web,
    ranked: &[Edge],
    nodes: usize,
    steps: usize,
    ranks: &mut Vec<usize>,
) -> Result<Settled, AllocError>
    ensures { IfOk result (IsSettled history.now) }
{
    let count = web.digest.count();
    let component = components(alloc, nodes, ranked)?;
    let mut sizes = zeros(alloc, nodes.saturating_add(1))?;
    for txn in 0..count {
        let number = number_at(component.as_slice(), txn);
        let size = number_at(sizes.as_slice(), number);
        put_at(sizes.as_mut_slice(), number, size.saturating_add(1));
    }
    let mut knots: std::collections::BTreeMap<usize, Vec<usize>> = std::collections::BTreeMap::new(
        alloc,
    );
    for txn in 0..count {
        let number = number_at(component.as_slice(), txn);
        if number_at(sizes.as_slice(), number) < 2 {
            continue;
        }
        match knots.get_mut(&number) {
            Some(list) => list.push(txn)?,
            None => {
                let mut list = Vec::new(alloc);
                list.push(txn)?;
                knots.insert(number, list)?;
            }
        }
    }
    for (_, knot) in knots.iter() {
        if knot.len() > MOST_OF_KNOT {
            return Ok(Settled::Open);
        }
        let ids = grown(alloc, web, knot.as_slice(), steps)?;
        let mut build = fresh(alloc, history, web);
        let found = search_knot(alloc, &mut build, ids.as_slice(), ranks.as_slice())?;
        match found {
            Searched::Refuted(lines) => {
                return Ok(Settled::Answer(by_build(alloc, history, build, lines.as_slice())?));
            }
            Searched::Order(order) => {
                let mut old = Vec::new(alloc);
                for txn in ids.as_slice() {
                    old.push(number_at(ranks.as_slice(), *txn))?;
                }
                old.as_mut_slice().sort_unstable();
                for at in 0..order.len() {
                    let txn = number_at(order.as_slice(), at);
                    let rank = number_at(old.as_slice(), at);
                    put_at(ranks.as_mut_slice(), txn, rank);
                }
            }
            Searched::Open => return Ok(Settled::Open),
        }
    }
    Ok(Settled::Further)
}

/// The read of two sources at the least line, where there is one.
fn least_repeated(digest: &Digest) -> Option<Read> {
    let mut least: Option<Read> = None;
    let mut line = u32::MAX;
    for read in digest.reads.as_slice() {
        if read.source == Source::Many && read.line <= line {
            line = read.line;
            least = Some(*read);
        }
    }
    for passed in digest.passed.as_slice() {
        let record = number_at(digest.erased.as_slice(), passed.span.first);
        if record < passed.span.past && passed.span.line <= line {
            line = passed.span.line;
            least = Some(digest.passing_read(passed, record));
        }
    }
    least
}

/// Answers by the read of two sources at the least line, where there is one.
fn repeated(history: &[Committed], web: &Web) -> Result<Answer, AllocError>
    ensures { IfOk result (IsAnswer history.now) }
{
    let digest = &web.digest;
    let read = match least_repeated(digest) {
        Some(read) => read,
        None => return Ok(Answer::Undecided),
    };
    let mut one: Option<usize> = None;
    let mut other: Option<usize> = None;
    for left in digest.left.as_slice() {
        if left.record == read.record && left.content == read.content && left.txn != read.txn {
            let place = number_at(digest.places.as_slice(), left.txn);
            if other.is_none() {
                other = Some(place);
            } else if one.is_none() {
                one = Some(place);
            }
        }
    }
    let number = match digest.numbers.get(read.txn) {
        Some(number) => *number,
        None => 0,
    };
    let reader = number_at(digest.places.as_slice(), read.txn);
    let record = match digest.records.get(read.record) {
        Some(record) => record.copy()?,
        None => return Ok(Answer::Undecided),
    };
    let value = match history.get(reader) {
        Some(committed) => match committed.told.oldest_first().get(read.place) {
            Some(operation) => value_told(&record, operation)?,
            None => None,
        },
        None => None,
    };
    match other {
        Some(other) => {
            let repeat = Repeat {
                record,
                reader,
                place: read.place,
                value,
                one,
                other,
            };
            Ok(by_repeat(history, &repeat, number, read.line))
        }
        None => Ok(Answer::Undecided),
    }
}
