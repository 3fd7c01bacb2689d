//! Laws of lines. Each function here takes nothing, answers nothing and carries a proved fact.
ghost use Rattle.std.specs.Prelude.{◌≡◌, ◌↔◌, ◌++◌, ◌∷◌, [], Option, None, Some, ℕ, Bool, List};
ghost use Rattle.icu_tables.specs.declared.tables.Tables.{Tables};
ghost use Rattle.icu_locale_lines.specs.declared.asked.Asked.{Asked};
ghost use Rattle.icu_locale_lines.specs.declared.runs.Status.{Status};
ghost use Rattle.icu_locale_lines.specs.declared.work.Tools.{Tools};
ghost use Rattle.icu_locale_lines.specs.declared.work.Work.{Work};
ghost use Rattle.icu_locale_extensions.specs.declared.syntax.Syntax.{Syntax};
ghost use Rattle.icu_locale_extensions.specs.declared.syntax.Syntax.TheVariants.{Unicode};
ghost use Rattle.icu_locale_lines.specs.Answers.{HasNoSingleton, HoldsIdentifiers, IsAnswer, IsAnswerBy};
ghost use Rattle.icu_locale_lines.specs.Grammar.{parse};
ghost use Rattle.icu_locale_lines.specs.Held.{Held, HoldsList, IsWorkOver};
ghost use Rattle.icu_locale_lines.specs.Lists.{IsAvailable, listed, shown_at};
ghost use Rattle.icu_locale_lines.specs.Lines.{Stream};
ghost use Rattle.icu_locale_lines.specs.Runs.{WritesAll};
ghost use Rattle.icu_locale_lines.specs.SameRows.{HaveSameRows};
ghost use Rattle.icu_locale_lines.specs.Streams.{IsRunWithin};
ghost use Rattle.icu_locale_lines.specs.WholeRuns.{IsRun, WritesOutput};
ghost use Rattle.icu_locale_lines.specs.WordRuns.{IsWordsRun, IsWordsStream};
ghost use Rattle.icu_locale_lines.specs.declared.command.Command.{Command};
ghost use Rattle.icu_locale_lines.specs.declared.command.LineCommand.{LineCommand};
ghost use Rattle.icu_locale_lines.specs.laws.Forms.{AreWordsOf};
ghost use Rattle.icu_locale_core.specs.declared.langid.LanguageIdentifier.{LanguageIdentifier};
ghost use Rattle.icu_locale_extensions.specs.declared.identifier.LocaleIdentifier.{LocaleIdentifier};

use icu_locale::laws::{canonical_form_is_one, minimal_form_is_one};
use icu_locale_core::laws::spelled_once;
use icu_locale_extensions::laws::{
    identifiers_read_alike, plain_texts_read_alike, reading_is_by_the_grammar, refusals_are_faults,
    spelled_is_read,
};
use icu_locale_full_names::laws::identifiers_keep_their_names;
use icu_locale_key::laws::whole_key_is_one;
use icu_locale_matching::laws::{the_nearest_to_requests_is_one, what_is_served_is_one};
use icu_locale_places::laws::a_fault_has_one_place;
use icu_locale_values::laws::{a_refusal_is_one, whole_form_is_one, whole_where_runs_end};
use icu_tables::laws::named_keys_are_one;

/// A line has one answer at most: what is written for it is told by the line and the work alone.
pub fn a_line_has_one_answer()
    ensures { (work : Work) (line one two : List ℕ) (a b : Bool)
        → IsAnswer work line one a → IsAnswer work line two b → (one ≡ two) × (a ≡ b) }
{
    spelled_once();
    spelled_is_read();
    reading_is_by_the_grammar();
    minimal_form_is_one();
    canonical_form_is_one();
    whole_form_is_one();
    whole_where_runs_end();
    a_refusal_is_one();
    whole_key_is_one();
    what_is_served_is_one();
    the_nearest_to_requests_is_one();
    a_fault_has_one_place();
    named_keys_are_one();
}

/// Works of one command answer alike over the same that is held, and also over tables with the same rows and the same list.
pub fn works_answer_alike()
    ensures held { (c : LineCommand) (h : Held) (one two : Work) (line text : List ℕ)
        (accepted : Bool) → IsWorkOver c h one → IsWorkOver c h two
        → IsAnswer one line text accepted → IsAnswer two line text accepted }
    ensures rows { (c : LineCommand) (h k : Held) (one two : Work) (line text : List ℕ)
        (accepted : Bool) → HaveSameRows h.tables k.tables → h.available ≡ k.available
        → h.wholes ≡ k.wholes → IsWorkOver c h one → IsWorkOver c k two
        → IsAnswer one line text accepted → IsAnswer two line text accepted }
{
    spelled_once();
}

/// A line makes one list available.
pub fn a_list_is_one()
    ensures { (syntax : Option Syntax) (line : List ℕ) (h k : Held) → HoldsList syntax line h
        → HoldsList syntax line k → (h.available ≡ k.available) × (h.wholes ≡ k.wholes) }
{
    spelled_once();
    spelled_is_read();
    reading_is_by_the_grammar();
}

/// Over tables with the same rows the input of a command determines the bytes that are written and the status.
pub fn input_determines_output()
    ensures { (c : Command) (t u : Tables) (input one two : List ℕ) (of_one of_two : Status)
        → HaveSameRows t u → WritesOutput c t input (Some []) (Some one) of_one
        → WritesOutput c u input (Some []) (Some two) of_two
        → (one ≡ two) × (of_one ≡ of_two) }
{
    spelled_once();
    spelled_is_read();
    reading_is_by_the_grammar();
    a_line_has_one_answer();
}

/// The words of a program and its input determine the bytes that are written and the status: of a run, and of a stream.
pub fn words_determine_output()
    ensures run { (words : List (List ℕ)) (input one two : List ℕ) (read also_read : Stream)
        (of_one of_two : Status)
        → IsWordsRun words (Some input) read (Some []) (Some one) of_one
        → IsWordsRun words (Some input) also_read (Some []) (Some two) of_two
        → (one ≡ two) × (of_one ≡ of_two) }
    ensures stream { (words : List (List ℕ)) (input one two : List ℕ) (read also_read : Stream)
        (of_one of_two : Status)
        → IsWordsStream words (Some input) read (Some []) (Some one) of_one
        → IsWordsStream words (Some input) also_read (Some []) (Some two) of_two
        → (one ≡ two) × (of_one ≡ of_two) }
{
    input_determines_output();
}

/// A line that holds identifiers alone is answered alike in each syntax of locale identifiers and without one. In the
/// syntax of UTS #35 so is each line without a piece of one character, also where it is refused, but at `name` over rules,
/// and but for a tab at `canonicalize`. Where a first line lists identifiers alone, the same is available, and is written
/// alike.
pub fn syntaxes_answer_alike()
    ensures alike { (tools : Tools) (s : Syntax) (line text : List ℕ) (accepted : Bool)
        → HoldsIdentifiers tools line
        → IsAnswerBy (Some s) tools line text accepted
        ↔ IsAnswerBy None tools line text accepted }
    ensures plain { (tools : Tools) (line text : List ℕ) (accepted : Bool)
        → HasNoSingleton tools line
        → IsAnswerBy (Some Unicode) tools line text accepted
        ↔ IsAnswerBy None tools line text accepted }
    ensures offered { (s : Syntax) (line : List ℕ) (xs ys : List LanguageIdentifier)
        (ws vs : List LocaleIdentifier) → IsAvailable None (listed line) xs ws
        → IsAvailable (Some s) (listed line) ys vs
        → (ys ≡ xs) × ((place : ℕ) → shown_at ys vs place ≡ shown_at xs ws place) }
{
    spelled_once();
    spelled_is_read();
    reading_is_by_the_grammar();
    refusals_are_faults();
    plain_texts_read_alike();
    identifiers_read_alike();
    whole_form_is_one();
    identifiers_keep_their_names();
}

/// After a line feed, which is 10, an input may be cut: what runs over its parts write, one after the other, is
/// what a run over the whole writes.
pub fn parts_make_the_whole()
    ensures { (work : Work) (front rest one two all : List ℕ) (of_one of_two of_all : Status)
        → WritesAll work (front ++ 10 ∷ []) (Some []) (Some one) of_one
        → WritesAll work rest (Some []) (Some two) of_two
        → WritesAll work (front ++ 10 ∷ rest) (Some []) (Some all) of_all
        → all ≡ one ++ two }
{
    a_line_has_one_answer();
}

/// A stream that has ended well wrote what a run of the same command writes, over the same tables and the same input, and
/// with the same status; and without a bound of its lines it writes all that a run does.
pub fn streams_write_as_runs()
    ensures same { (c : Command) (t : Tables) (read read' wrote wrote' : Stream)
        (status : Status) → IsRunWithin None c t read read read' wrote wrote' status
        ↔ IsRun c t read read' wrote wrote' status }
    ensures bounded { (longest : Option ℕ) (c : Command) (t : Tables)
        (read read' wrote wrote' : Stream) (status : Status)
        → IsRunWithin longest c t read read read' wrote wrote' status
        → IsRun c t read read' wrote wrote' status }
{}

/// Words are parsed as what they have the form of, and no others are: `longest` and a number, the word of a syntax, those
/// of a command, and where its tables come from.
pub fn words_are_parsed()
    ensures parsed { (asked : Asked) (words : List (List ℕ)) → AreWordsOf asked words
        → parse words ≡ Some asked }
    ensures told { (asked : Asked) (words : List (List ℕ)) → parse words ≡ Some asked
        → AreWordsOf asked words }
{}
