//! The first words of lines and messages.
ghost use Rattle.std.specs.Prelude.{◌≡◌, Some, IfSome, is_some, map};
ghost use Rattle.co_schedule.specs.Places.{is_in, one_of};
ghost use Rattle.co_schedule.specs.Grammar.{form_word, form_named, all_forms, message_word, message_named, all_messages};

/// The forms of events.
#[derive(Clone, Copy)]
pub enum Form {
    Begin,
    Local,
    Read,
    Write,
    Erase,
    Scan,
    Commit,
    Abort,
    Deliver,
    Vote,
    Timer,
    Ask,
    Resend,
    Crash,
    Restart,
    Arm,
    Checkpoint,
}

const FORMS: [Form; 17] = [
    Form::Begin,
    Form::Local,
    Form::Read,
    Form::Write,
    Form::Erase,
    Form::Scan,
    Form::Commit,
    Form::Abort,
    Form::Deliver,
    Form::Vote,
    Form::Timer,
    Form::Ask,
    Form::Resend,
    Form::Crash,
    Form::Restart,
    Form::Arm,
    Form::Checkpoint,
];

fn word_of(form: Form) -> &'static [u8]
    ensures { result.now ≡ form_word form }
{
    match form {
        Form::Begin => b"begin",
        Form::Local => b"local",
        Form::Read => b"read",
        Form::Write => b"write",
        Form::Erase => b"erase",
        Form::Scan => b"scan",
        Form::Commit => b"commit",
        Form::Abort => b"abort",
        Form::Deliver => b"deliver",
        Form::Vote => b"vote",
        Form::Timer => b"timer",
        Form::Ask => b"ask",
        Form::Resend => b"resend",
        Form::Crash => b"crash",
        Form::Restart => b"restart",
        Form::Arm => b"arm",
        Form::Checkpoint => b"checkpoint",
    }
}

fn find_form(word: &[u8]) -> Option<Form>
    ensures { result ≡ form_named word.now }
{
    FORMS.iter().copied().find(|form| word_of(*form) == word)
}

/// The form whose word this is.
pub fn form_of(word: &[u8]) -> Option<Form>
    ensures found { IfSome result (λ form. (word.now ≡ form_word form) × (form_named (form_word form) ≡ Some form)) }
    ensures test { is_some result ≡ is_in (one_of (map form_word all_forms)) word.now }
{
    find_form(word)
}

/// The kinds of messages.
#[derive(Clone, Copy)]
pub enum MessageForm {
    Prepare,
    Vote,
    Decide,
    Ask,
    Ack,
}

const MESSAGE_FORMS: [MessageForm; 5] = [
    MessageForm::Prepare,
    MessageForm::Vote,
    MessageForm::Decide,
    MessageForm::Ask,
    MessageForm::Ack,
];

fn message_word_of(form: MessageForm) -> &'static [u8]
    ensures { result.now ≡ message_word form }
{
    match form {
        MessageForm::Prepare => b"prepare",
        MessageForm::Vote => b"vote",
        MessageForm::Decide => b"decide",
        MessageForm::Ask => b"ask",
        MessageForm::Ack => b"ack",
    }
}

fn find_message_form(word: &[u8]) -> Option<MessageForm>
    ensures { result ≡ message_named word.now }
{
    MESSAGE_FORMS
        .iter()
        .copied()
        .find(|form| message_word_of(*form) == word)
}

/// The kind of message whose word this is.
pub fn message_form_of(word: &[u8]) -> Option<MessageForm>
    ensures found { IfSome result (λ form. (word.now ≡ message_word form) × (message_named (message_word form) ≡ Some form)) }
    ensures test { is_some result ≡ is_in (one_of (map message_word all_messages)) word.now }
{
    find_message_form(word)
}
