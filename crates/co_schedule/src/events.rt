//! Words as events: one function for each form.
ghost use Rattle.std.specs.Prelude.{◌≡◌, [], ◌∷◌, codes, decimal, Some, IfOk, IfErr};
ghost use Rattle.co_schedule.specs.Spelling.{member_word, coord_word, node_word, event_words};
ghost use Rattle.co_schedule.specs.Faults.{IsFirstFault};
ghost use Rattle.co_schedule.specs.Places.{member, coord, node, nothing, ◌▸◌, first_fault};
ghost use Rattle.co_schedule.specs.Grammar.{txn, form_word, event_fields, event_places};
ghost use Rattle.co_schedule.specs.View.{IsWithin, IsNode, IsTxn, IsEventFor, IsViewFor, view_words};

use crate::counts::NodeCounts;
use crate::fault::{Mistake, ReadFault};
use crate::form::Form;
use crate::messages::read_message;
use crate::view::LineView;
use crate::words::Words;
use co_base::{Node, Txn};
use co_message::Event;
use std::alloc::Global;

fn txn_alone(words: &mut Words<'_>) -> Result<Txn, Mistake>
    ensures found { IfOk result (λ t. IsTxn t × (words.old ≡ decimal t ∷ [])) }
    ensures fault { IfErr result (λ mistake. first_fault (txn ▸ nothing) words.old ≡ Some mistake) }
{
    let number = words.number(0, u32::MAX)?;
    words.end()?;
    Ok(Txn(number))
}

fn txn_and_member(words: &mut Words<'_>, nodes: NodeCounts) -> Result<(Txn, u8), Mistake>
    ensures found { IfOk result (λ x. IsTxn x.0 × IsWithin 1 nodes.members x.1 × (words.old ≡ decimal x.0 ∷ member_word x.1 ∷ [])) }
    ensures fault { IfErr result (λ mistake. first_fault (txn ▸ member nodes.members ▸ nothing) words.old ≡ Some mistake) }
{
    let number = words.number(0, u32::MAX)?;
    let member = words.member(nodes.members)?;
    words.end()?;
    Ok((Txn(number), member))
}

fn txn_and_coord(words: &mut Words<'_>, nodes: NodeCounts) -> Result<(Txn, u8), Mistake>
    ensures found { IfOk result (λ x. IsTxn x.0 × IsWithin 1 nodes.coords x.1 × (words.old ≡ decimal x.0 ∷ coord_word x.1 ∷ [])) }
    ensures fault { IfErr result (λ mistake. first_fault (txn ▸ coord nodes.coords ▸ nothing) words.old ≡ Some mistake) }
{
    let number = words.number(0, u32::MAX)?;
    let coord = words.coord(nodes.coords)?;
    words.end()?;
    Ok((Txn(number), coord))
}

fn txn_and_node(words: &mut Words<'_>, nodes: NodeCounts) -> Result<(Txn, Node), Mistake>
    ensures found { IfOk result (λ x. IsTxn x.0 × IsNode nodes.members nodes.coords x.1 × (words.old ≡ decimal x.0 ∷ node_word x.1 ∷ [])) }
    ensures fault { IfErr result (λ mistake. first_fault (txn ▸ node nodes.members nodes.coords ▸ nothing) words.old ≡ Some mistake) }
{
    let number = words.number(0, u32::MAX)?;
    let node = words.node(nodes.members, nodes.coords)?;
    words.end()?;
    Ok((Txn(number), node))
}

fn node_alone(words: &mut Words<'_>, nodes: NodeCounts) -> Result<Node, Mistake>
    ensures found { IfOk result (λ x. IsNode nodes.members nodes.coords x × (words.old ≡ node_word x ∷ [])) }
    ensures fault { IfErr result (λ mistake. first_fault (node nodes.members nodes.coords ▸ nothing) words.old ≡ Some mistake) }
{
    let node = words.node(nodes.members, nodes.coords)?;
    words.end()?;
    Ok(node)
}

fn begin<'a>(words: &mut Words<'a>, nodes: NodeCounts) -> Result<LineView<'a>, Mistake>
    ensures found { IfOk result (λ view. IsViewFor nodes.members nodes.coords view × (codes "begin" ∷ words.old ≡ view_words view)) }
    ensures fault { IfErr result (λ mistake. first_fault (event_fields nodes.members nodes.coords Form.Begin) words.old ≡ Some mistake) }
{
    let (txn, coord) = txn_and_coord(words, nodes)?;
    Ok(LineView::Begin { txn, coord })
}

fn local<'a>(words: &mut Words<'a>, nodes: NodeCounts) -> Result<LineView<'a>, Mistake>
    ensures found { IfOk result (λ view. IsViewFor nodes.members nodes.coords view × (codes "local" ∷ words.old ≡ view_words view)) }
    ensures fault { IfErr result (λ mistake. first_fault (event_fields nodes.members nodes.coords Form.Local) words.old ≡ Some mistake) }
{
    let (txn, member) = txn_and_member(words, nodes)?;
    Ok(LineView::Local { txn, member })
}

fn read<'a>(words: &mut Words<'a>, nodes: NodeCounts) -> Result<LineView<'a>, Mistake>
    ensures found { IfOk result (λ view. IsViewFor nodes.members nodes.coords view × (codes "read" ∷ words.old ≡ view_words view)) }
    ensures fault { IfErr result (λ mistake. first_fault (event_fields nodes.members nodes.coords Form.Read) words.old ≡ Some mistake) }
{
    let number = words.number(0, u32::MAX)?;
    let member = words.member(nodes.members)?;
    let key = words.key()?;
    words.end()?;
    Ok(LineView::Read {
        txn: Txn(number),
        member,
        key,
    })
}

fn write<'a>(words: &mut Words<'a>, nodes: NodeCounts) -> Result<LineView<'a>, Mistake>
    ensures found { IfOk result (λ view. IsViewFor nodes.members nodes.coords view × (codes "write" ∷ words.old ≡ view_words view)) }
    ensures fault { IfErr result (λ mistake. first_fault (event_fields nodes.members nodes.coords Form.Write) words.old ≡ Some mistake) }
{
    let number = words.number(0, u32::MAX)?;
    let member = words.member(nodes.members)?;
    let key = words.key()?;
    let value = words.value()?;
    words.end()?;
    Ok(LineView::Write {
        txn: Txn(number),
        member,
        key,
        value,
    })
}

fn erase<'a>(words: &mut Words<'a>, nodes: NodeCounts) -> Result<LineView<'a>, Mistake>
    ensures found { IfOk result (λ view. IsViewFor nodes.members nodes.coords view × (codes "erase" ∷ words.old ≡ view_words view)) }
    ensures fault { IfErr result (λ mistake. first_fault (event_fields nodes.members nodes.coords Form.Erase) words.old ≡ Some mistake) }
{
    let number = words.number(0, u32::MAX)?;
    let member = words.member(nodes.members)?;
    let key = words.key()?;
    words.end()?;
    Ok(LineView::Erase {
        txn: Txn(number),
        member,
        key,
    })
}

fn scan<'a>(words: &mut Words<'a>, nodes: NodeCounts) -> Result<LineView<'a>, Mistake>
    ensures found { IfOk result (λ view. IsViewFor nodes.members nodes.coords view × (codes "scan" ∷ words.old ≡ view_words view)) }
    ensures fault { IfErr result (λ mistake. first_fault (event_fields nodes.members nodes.coords Form.Scan) words.old ≡ Some mistake) }
{
    let number = words.number(0, u32::MAX)?;
    let member = words.member(nodes.members)?;
    let lo = words.key()?;
    let hi = words.key_from(lo)?;
    words.end()?;
    Ok(LineView::Scan {
        txn: Txn(number),
        member,
        lo,
        hi,
    })
}

fn deliver<'a>(words: &mut Words<'a>, nodes: NodeCounts) -> Result<LineView<'a>, Mistake>
    ensures found { IfOk result (λ view. IsViewFor nodes.members nodes.coords view × (codes "deliver" ∷ words.old ≡ view_words view)) }
    ensures fault { IfErr result (λ mistake. first_fault (event_fields nodes.members nodes.coords Form.Deliver) words.old ≡ Some mistake) }
{
    let message = read_message(words, nodes)?;
    Ok(LineView::Deliver(message))
}

fn vote<'a>(words: &mut Words<'a>, nodes: NodeCounts) -> Result<LineView<'a>, Mistake>
    ensures found { IfOk result (λ view. IsViewFor nodes.members nodes.coords view × (codes "vote" ∷ words.old ≡ view_words view)) }
    ensures fault { IfErr result (λ mistake. first_fault (event_fields nodes.members nodes.coords Form.Vote) words.old ≡ Some mistake) }
{
    let (txn, member) = txn_and_member(words, nodes)?;
    Ok(LineView::Vote { txn, member })
}

fn timer<'a>(words: &mut Words<'a>, nodes: NodeCounts) -> Result<LineView<'a>, Mistake>
    ensures found { IfOk result (λ view. IsViewFor nodes.members nodes.coords view × (codes "timer" ∷ words.old ≡ view_words view)) }
    ensures fault { IfErr result (λ mistake. first_fault (event_fields nodes.members nodes.coords Form.Timer) words.old ≡ Some mistake) }
{
    let (txn, node) = txn_and_node(words, nodes)?;
    Ok(LineView::Timer { txn, node })
}

fn ask<'a>(words: &mut Words<'a>, nodes: NodeCounts) -> Result<LineView<'a>, Mistake>
    ensures found { IfOk result (λ view. IsViewFor nodes.members nodes.coords view × (codes "ask" ∷ words.old ≡ view_words view)) }
    ensures fault { IfErr result (λ mistake. first_fault (event_fields nodes.members nodes.coords Form.Ask) words.old ≡ Some mistake) }
{
    let (txn, member) = txn_and_member(words, nodes)?;
    Ok(LineView::Ask { txn, member })
}

fn resend<'a>(words: &mut Words<'a>, nodes: NodeCounts) -> Result<LineView<'a>, Mistake>
    ensures found { IfOk result (λ view. IsViewFor nodes.members nodes.coords view × (codes "resend" ∷ words.old ≡ view_words view)) }
    ensures fault { IfErr result (λ mistake. first_fault (event_fields nodes.members nodes.coords Form.Resend) words.old ≡ Some mistake) }
{
    let (txn, coord) = txn_and_coord(words, nodes)?;
    Ok(LineView::Resend { txn, coord })
}

fn crash<'a>(words: &mut Words<'a>, nodes: NodeCounts) -> Result<LineView<'a>, Mistake>
    ensures found { IfOk result (λ view. IsViewFor nodes.members nodes.coords view × (codes "crash" ∷ words.old ≡ view_words view)) }
    ensures fault { IfErr result (λ mistake. first_fault (event_fields nodes.members nodes.coords Form.Crash) words.old ≡ Some mistake) }
{
    let node = node_alone(words, nodes)?;
    Ok(LineView::Crash(node))
}

fn restart<'a>(words: &mut Words<'a>, nodes: NodeCounts) -> Result<LineView<'a>, Mistake>
    ensures found { IfOk result (λ view. IsViewFor nodes.members nodes.coords view × (codes "restart" ∷ words.old ≡ view_words view)) }
    ensures fault { IfErr result (λ mistake. first_fault (event_fields nodes.members nodes.coords Form.Restart) words.old ≡ Some mistake) }
{
    let node = node_alone(words, nodes)?;
    Ok(LineView::Restart(node))
}

fn arm<'a>(words: &mut Words<'a>, nodes: NodeCounts) -> Result<LineView<'a>, Mistake>
    ensures found { IfOk result (λ view. IsViewFor nodes.members nodes.coords view × (codes "arm" ∷ words.old ≡ view_words view)) }
    ensures fault { IfErr result (λ mistake. first_fault (event_fields nodes.members nodes.coords Form.Arm) words.old ≡ Some mistake) }
{
    let node = words.node(nodes.members, nodes.coords)?;
    let call = words.number(1, 4)?;
    let leaves = words.leaves()?;
    words.end()?;
    Ok(LineView::Arm {
        node,
        call: call as u8,
        leaves,
    })
}

fn checkpoint<'a>(words: &mut Words<'a>, nodes: NodeCounts) -> Result<LineView<'a>, Mistake>
    ensures found { IfOk result (λ view. IsViewFor nodes.members nodes.coords view × (codes "checkpoint" ∷ words.old ≡ view_words view)) }
    ensures fault { IfErr result (λ mistake. first_fault (event_fields nodes.members nodes.coords Form.Checkpoint) words.old ≡ Some mistake) }
{
    let node = node_alone(words, nodes)?;
    Ok(LineView::Checkpoint(node))
}

/// Reads what stands behind the first word of an event of this form.
fn view_of<'a>(
    words: &mut Words<'a>,
    nodes: NodeCounts,
    form: Form,
) -> Result<LineView<'a>, Mistake>
    ensures found { IfOk result (λ view. IsViewFor nodes.members nodes.coords view × (form_word form ∷ words.old ≡ view_words view)) }
    ensures fault { IfErr result (λ mistake. first_fault (event_fields nodes.members nodes.coords form) words.old ≡ Some mistake) }
{
    match form {
        Form::Begin => begin(words, nodes),
        Form::Local => local(words, nodes),
        Form::Read => read(words, nodes),
        Form::Write => write(words, nodes),
        Form::Erase => erase(words, nodes),
        Form::Scan => scan(words, nodes),
        Form::Commit => {
            let txn = txn_alone(words)?;
            Ok(LineView::Commit { txn })
        }
        Form::Abort => {
            let txn = txn_alone(words)?;
            Ok(LineView::Abort { txn })
        }
        Form::Deliver => deliver(words, nodes),
        Form::Vote => vote(words, nodes),
        Form::Timer => timer(words, nodes),
        Form::Ask => ask(words, nodes),
        Form::Resend => resend(words, nodes),
        Form::Crash => crash(words, nodes),
        Form::Restart => restart(words, nodes),
        Form::Arm => arm(words, nodes),
        Form::Checkpoint => checkpoint(words, nodes),
    }
}

/// Reads an event, which is all that is left.
pub fn read_event<'a>(words: &mut Words<'a>, nodes: NodeCounts) -> Result<LineView<'a>, Mistake>
    ensures found { IfOk result (λ view. IsViewFor nodes.members nodes.coords view × (words.old ≡ view_words view)) }
    ensures fault { IfErr result (λ mistake. first_fault (event_places nodes.members nodes.coords) words.old ≡ Some mistake) }
{
    let form = words.form()?;
    view_of(words, nodes, form)
}

/// Reads an event behind its first word, with texts of its own.
pub fn read_event_fields(
    alloc: Global,
    words: &mut Words<'_>,
    nodes: NodeCounts,
    form: Form,
) -> Result<Event, ReadFault>
    ensures found { IfOk result (λ event. IsEventFor nodes.members nodes.coords event × (form_word form ∷ words.old ≡ event_words event)) }
    ensures fault { IfErr result (IsFirstFault (event_fields nodes.members nodes.coords form) words.old) }
{
    match view_of(words, nodes, form) {
        Ok(view) => Ok(view.event(alloc)?),
        Err(mistake) => Err(ReadFault::Mistake(mistake)),
    }
}
