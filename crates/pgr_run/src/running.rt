ghost use Rattle.std.specs.Prelude.{◌≡◌, ◌≢◌, ◌⊎◌, ◌≤◌, ℕ, List, [], ◌++◌, Option, All, IfOk, OnOk, IfErr, OnErr, IsErr, IsErrOf, is_some};
ghost use Rattle.pgr_outside.specs.Faults.{HasRisen, NoneFell};
ghost use Rattle.pgr_words.specs.Commands.{command_of};
ghost use Rattle.pgr_answer.specs.Files.{files_of, IsKnownAccepted};
ghost use Rattle.pgr_answer.specs.Refusals.{AreAcceptedTogether};
ghost use Rattle.pgr_answer.specs.declared.refused.Refused.TheVariants as refused;
ghost use Rattle.pgr_run.specs.declared.cause.Cause.{Cause as ACause};
ghost use Rattle.pgr_run.specs.Causes.{status_of, status_of_refusal};
ghost use Rattle.pgr_rows.specs.Text.{text_of};
ghost use Rattle.pgr_answer.specs.Allowed.{AnswersCommand};
ghost use Rattle.pgr_answer.specs.declared.answered.Note.{Note as ANote};
ghost use Rattle.pgr_run.specs.Messages.{message_of, notes_text};
ghost use Rattle.pgr_run.specs.Promise.{texts, Asks, WritesAllowed, WritesLines, Holds, AReadFailed, EndsIn, WhereFirst, IsWritten};

use crate::cause::Cause;
use crate::message::message;
use crate::note::write_notes;
use crate::status::Status;
use pgr_answer::{Answered, answer};
use pgr_outside::{Failed, Sink, Store, write_parts};
use pgr_rows::write_table;
use pgr_words::read_words;
use std::alloc::Global;

/// Answers a command line over the files of a store: the result table on one sink, notes and a message on another.
///
/// The words are a function's name and its options; see [`read_words`](pgr_words::read_words). The causes are judged in
/// this order: the words; each file that they name, in the order of [`Role`](pgr_answer::Role), which is read whole and
/// judged before the next is read; the restrictions over the costs of the links; a write that failed. `Memory` may stand in
/// place of any of them up to the writing.
/// The output is written only after all rows stand, the whole header line first, so every status but `Done` and a failed
/// write leaves it as it was. The other sink receives the notes of the answer, a line each, before the output is written; and
/// one line for the cause of every status but `Done`, last of all. Where it fails, it holds a prefix of these lines, nothing
/// more is written to it, and the status stays what it is.
pub fn run<S: Store, O: Sink, E: Sink>(
    alloc: Global,
    words: &[String],
    store: &mut S,
    out: &mut O,
    err: &mut E,
) -> Status
    // Status 0: exactly the text of a table that the command allows was written, and exactly the notes that belong to it, or a prefix of them where
    // the count rose; where there are none, the other sink is left alone.
    ensures done { result ≡ Status.Done → (notes : List ANote)
        × Asks (texts words.now) (λ command. WritesAllowed command (S.content store.old) notes (O.written out.old) (O.written out.new))
        × WritesLines (notes_text notes) (E.written err.old) (E.written err.new) (E.faults err.old) (E.faults err.new)
        × (notes ≡ [] → err.new ≡ err.old) }

    // Every other status has a cause that holds. Its message was written, or a prefix of it where the count rose; in front of it are notes only where a
    // write failed: those that belong to the table. The output itself is left alone unless a write failed.
    ensures cause { result ≢ Status.Done → (cause : ACause) × (notes : List ANote) × (result ≡ status_of cause)
        × Holds (texts words.now) (record {
          content = S.content store.old;
          names_before = S.faults store.old;
          names_after = S.faults store.new;
          out_before = O.written out.old;
          out_after = O.written out.new;
          faults_before = O.faults out.old;
          faults_after = O.faults out.new;
          notes = notes;
        }) cause
        × WritesLines (notes_text notes ++ message_of cause) (E.written err.old) (E.written err.new) (E.faults err.old) (E.faults err.new)
        × (cause ≢ Cause.WriteFailed → (out.new ≡ out.old) × (notes ≡ [])) }

    // Where the words break a rule, or known contents are refused, that is the status, unless it is out of memory or a read failed;
    // and where it is that of the words, no file was read: the store itself is as it was.
    ensures words_where { IsErr (command_of (texts words.now)) → (result ≡ Status.Words) ⊎ (result ≡ Status.Memory) }
    ensures words_first { result ≡ Status.Words → store.new ≡ store.old }
    ensures refused_where { WhereFirst (texts words.now) (S.content store.old) (λ command found. (result ≡ status_of_refusal found) ⊎ (result ≡ Status.Memory)
        ⊎ ((result ≡ Status.Outside) × AReadFailed command (S.content store.old) (S.faults store.old) (S.faults store.new))) }

    // Where all contents are known and accepted, also together, and nothing failed, all was done, unless it is out of memory.
    ensures completes { IfOk (command_of (texts words.now)) (λ command. All (IsKnownAccepted (S.content store.old)) (files_of command)
        → AreAcceptedTogether (S.content store.old) command
        → All (λ file. ¬ HasRisen (S.faults store.old file.name) (S.faults store.new file.name)) (files_of command)
        → ¬ HasRisen (O.faults out.old) (O.faults out.new)
        → (result ≡ Status.Done) ⊎ (result ≡ Status.Memory)) }

    // What stays: the output itself, but for a table that was begun.
    ensures untouched { result ≢ Status.Done → result ≢ Status.Outside → out.new ≡ out.old }
    ensures unchanged { result ≢ Status.Done → result ≢ Status.Outside → O.written out.new ≡ O.written out.old }
    ensures out_tells { is_some (O.written out.new) ≡ is_some (O.written out.old) }
    ensures out_faults { O.faults out.old ≤ O.faults out.new }
    ensures err_tells { is_some (E.written err.new) ≡ is_some (E.written err.old) }
    ensures err_faults { E.faults err.old ≤ E.faults err.new }
    ensures content { S.content store.new ≡ S.content store.old }
    ensures names_faults { NoneFell (S.faults store.old) (S.faults store.new) }
{
    match answer_words(alloc, words, store) {
        Ok(answered) => write_answer(&answered, out, err),
        Err(cause) => {
            let _ = write_parts(err, &message(cause));
            cause.status()
        }
    }
}

/// Answers a command line over the files of a store, or returns the cause why it isn't answered.
fn answer_words<S: Store>(alloc: Global, words: &[String], store: &mut S) -> Result<Answered, Cause>
    ensures answers { IfOk result (λ answered. Asks (texts words.now) (λ command. AnswersCommand command (S.content store.old) answered.rows answered.notes)) }
    ensures cause { IfErr result (λ cause. (out : Option (List ℕ)) (faults : ℕ) → Holds (texts words.now) (record {
      content = S.content store.old;
      names_before = S.faults store.old;
      names_after = S.faults store.new;
      out_before = out;
      out_after = out;
      faults_before = faults;
      faults_after = faults;
      notes = [];
    }) cause) }
    ensures words_where { IfErr (command_of (texts words.now)) (λ fault. IsErrOf result (Cause.Words fault) ⊎ IsErrOf result (Cause.Refused refused.Memory)) }
    ensures words_first { IfErr result (λ cause. status_of cause ≡ Status.Words → store.new ≡ store.old) }
    ensures refused_where { WhereFirst (texts words.now) (S.content store.old) (λ _. EndsIn result Cause.Refused) }
    ensures content { S.content store.new ≡ S.content store.old }
    ensures names_faults { NoneFell (S.faults store.old) (S.faults store.new) }
{
    let command = read_words(alloc, words)?;
    let answered = answer(alloc, &command, store)?;
    Ok(answered)
}

/// Writes the notes of an answer, its table, and a message where a write of the table failed.
///
/// Where the other sink fails, nothing more is written to it.
fn write_answer<O: Sink, E: Sink>(answered: &Answered, out: &mut O, err: &mut E) -> Status
    ensures written { IsWritten (text_of answered.now.rows) (notes_text answered.now.notes) result
        (O.written out.old) (O.written out.new) (O.faults out.old) (O.faults out.new)
        (E.written err.old) (E.written err.new) (E.faults err.old) (E.faults err.new) }
    ensures silent { result ≡ Status.Done → answered.now.notes ≡ [] → err.new ≡ err.old }
    ensures out_faults { O.faults out.old ≤ O.faults out.new }
    ensures err_faults { E.faults err.old ≤ E.faults err.new }
{
    let told = write_notes(err, answered.notes.as_slice());
    match write_table(out, &answered.rows) {
        Ok(()) => Status::Done,
        Err(_) => {
            tell_failure(err, told);
            Cause::WriteFailed.status()
        }
    }
}

/// Writes the message of a failed write, unless the notes in front of it weren't told.
fn tell_failure<E: Sink>(err: &mut E, told: Result<(), Failed>)
    ensures told { OnOk told (WritesLines (message_of Cause.WriteFailed) (E.written err.old) (E.written err.new) (E.faults err.old) (E.faults err.new)) }
    ensures not_told { OnErr told (err.new ≡ err.old) }
    ensures faults { E.faults err.old ≤ E.faults err.new }
{
    if told.is_err() {
        return;
    }
    let _ = write_parts(err, &message(Cause::WriteFailed));
}
