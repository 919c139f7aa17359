//! Words as messages.
ghost use Rattle.std.specs.Prelude.{◌≡◌, [], ◌∷◌, codes, decimal, Some, IfOk, IfErr};
ghost use Rattle.co_schedule.specs.Spelling.{member_word, coord_word, message_words};
ghost use Rattle.co_schedule.specs.Places.{member, coord, nothing, ◌▸◌, first_fault};
ghost use Rattle.co_schedule.specs.Grammar.{txn, message_word, message_fields, message_places};
ghost use Rattle.co_schedule.specs.View.{IsWithin, IsTxn, IsMessageFor};

use crate::counts::NodeCounts;
use crate::fault::Mistake;
use crate::form::MessageForm;
use crate::words::Words;
use co_base::Txn;
use co_message::Message;

fn prepare(words: &mut Words<'_>, nodes: NodeCounts) -> Result<Message, Mistake>
    ensures found { IfOk result (λ message. IsMessageFor nodes.members nodes.coords message × (codes "prepare" ∷ words.old ≡ message_words message)) }
    ensures fault { IfErr result (λ mistake. first_fault (message_fields nodes.members nodes.coords MessageForm.Prepare) words.old ≡ Some mistake) }
{
    let number = words.number(0, u32::MAX)?;
    let coord = words.coord(nodes.coords)?;
    let member = words.member(nodes.members)?;
    let count = words.number(0, 65535)?;
    words.end()?;
    Ok(Message::Prepare {
        txn: Txn(number),
        coord,
        member,
        count: count as u16,
    })
}

fn vote(words: &mut Words<'_>, nodes: NodeCounts) -> Result<Message, Mistake>
    ensures found { IfOk result (λ message. IsMessageFor nodes.members nodes.coords message × (codes "vote" ∷ words.old ≡ message_words message)) }
    ensures fault { IfErr result (λ mistake. first_fault (message_fields nodes.members nodes.coords MessageForm.Vote) words.old ≡ Some mistake) }
{
    let number = words.number(0, u32::MAX)?;
    let member = words.member(nodes.members)?;
    let coord = words.coord(nodes.coords)?;
    let yes = words.either(b"yes", b"no")?;
    words.end()?;
    Ok(Message::Vote {
        txn: Txn(number),
        member,
        coord,
        yes,
    })
}

fn decide(words: &mut Words<'_>, nodes: NodeCounts) -> Result<Message, Mistake>
    ensures found { IfOk result (λ message. IsMessageFor nodes.members nodes.coords message × (codes "decide" ∷ words.old ≡ message_words message)) }
    ensures fault { IfErr result (λ mistake. first_fault (message_fields nodes.members nodes.coords MessageForm.Decide) words.old ≡ Some mistake) }
{
    let number = words.number(0, u32::MAX)?;
    let coord = words.coord(nodes.coords)?;
    let member = words.member(nodes.members)?;
    let commit = words.either(b"commit", b"abort")?;
    words.end()?;
    Ok(Message::Decide {
        txn: Txn(number),
        coord,
        member,
        commit,
    })
}

fn to_coord(words: &mut Words<'_>, nodes: NodeCounts) -> Result<(Txn, u8, u8), Mistake>
    ensures found { IfOk result (λ x. IsTxn x.0 × IsWithin 1 nodes.members x.1 × IsWithin 1 nodes.coords x.2 × (words.old ≡ decimal x.0 ∷ member_word x.1 ∷ coord_word x.2 ∷ [])) }
    ensures fault { IfErr result (λ mistake. first_fault (txn ▸ member nodes.members ▸ coord nodes.coords ▸ nothing) words.old ≡ Some mistake) }
{
    let number = words.number(0, u32::MAX)?;
    let member = words.member(nodes.members)?;
    let coord = words.coord(nodes.coords)?;
    words.end()?;
    Ok((Txn(number), member, coord))
}

fn message_of(
    words: &mut Words<'_>,
    nodes: NodeCounts,
    form: MessageForm,
) -> Result<Message, Mistake>
    ensures found { IfOk result (λ message. IsMessageFor nodes.members nodes.coords message × (message_word form ∷ words.old ≡ message_words message)) }
    ensures fault { IfErr result (λ mistake. first_fault (message_fields nodes.members nodes.coords form) words.old ≡ Some mistake) }
{
    match form {
        MessageForm::Prepare => prepare(words, nodes),
        MessageForm::Vote => vote(words, nodes),
        MessageForm::Decide => decide(words, nodes),
        MessageForm::Ask => {
            let (txn, member, coord) = to_coord(words, nodes)?;
            Ok(Message::Ask { txn, member, coord })
        }
        MessageForm::Ack => {
            let (txn, member, coord) = to_coord(words, nodes)?;
            Ok(Message::Ack { txn, member, coord })
        }
    }
}

/// Reads a message, which is all that is left.
pub fn read_message(words: &mut Words<'_>, nodes: NodeCounts) -> Result<Message, Mistake>
    ensures found { IfOk result (λ message. IsMessageFor nodes.members nodes.coords message × (words.old ≡ message_words message)) }
    ensures fault { IfErr result (λ mistake. first_fault (message_places nodes.members nodes.coords) words.old ≡ Some mistake) }
{
    let form = words.message_form()?;
    message_of(words, nodes, form)
}
