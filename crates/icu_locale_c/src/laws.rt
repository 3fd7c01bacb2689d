//! Laws of the calls. Each function here takes nothing, answers nothing and carries a proved fact.
ghost use Rattle.std.specs.Prelude.{◌≡◌, ◌↔◌, ℕ, Bool, false, List, Option, Some, Ok};
ghost use Rattle.std.specs.List.{list_any};
ghost use Rattle.icu_tables.specs.declared.tables.Tables.{Tables};
ghost use Rattle.icu_locale_extensions.specs.declared.syntax.Syntax.{Syntax};
ghost use Rattle.icu_locale_lines.specs.Lines.{is_line_feed};
ghost use Rattle.icu_locale_c.specs.Calls.{IsAnswerTo, IsOpened};
ghost use Rattle.icu_locale_lines.specs.Held.{Held};
ghost use Rattle.icu_locale_c.specs.Negotiations.{IsListed};
ghost use Rattle.icu_locale_c.specs.Program.{AsksListIn, AsksNoList, IsWrittenFor, IsWrittenOverJson, as_line, behind_list};

use icu_locale_lines::laws::{a_list_is_one, input_determines_output};

/// What a call answers to a line is what the program writes for it over the same tables, and accepts alike: for the line
/// alone, and where the command asks for a list, behind a first line that is the list.
pub fn calls_answer_as_the_program()
    ensures alone { (h : Held) (command line text : List ℕ) (accepted : Bool)
        → AsksNoList command → list_any is_line_feed line ≡ false
        → IsAnswerTo h command line text accepted
        ↔ IsWrittenFor h.tables command (as_line line) text accepted }
    ensures listed { (syntax : Option Syntax) (t : Tables) (list : List ℕ) (h : Held)
        (command line text : List ℕ) (accepted : Bool)
        → AsksListIn syntax command → list_any is_line_feed list ≡ false
        → list_any is_line_feed line ≡ false → IsListed syntax t list h
        → IsAnswerTo h command line text accepted
        ↔ IsWrittenFor t command (behind_list list line) text accepted }
{
    a_list_is_one();
}

/// What a call answers over the tables that were opened of a text the program writes over that text as its first line, with
/// `json`, and it writes nothing else.
pub fn opened_tables_answer_as_the_program()
    ensures written { (json : List ℕ) (old : Option Held) (h : Held)
        (command line text : List ℕ) (accepted : Bool) → AsksNoList command
        → list_any is_line_feed json ≡ false → list_any is_line_feed line ≡ false
        → IsOpened json old (Some h) (Ok tt) → IsAnswerTo h command line text accepted
        → IsWrittenOverJson json command line text accepted }
    ensures only { (json : List ℕ) (old : Option Held) (h : Held)
        (command line text other : List ℕ) (accepted also : Bool) → AsksNoList command
        → list_any is_line_feed json ≡ false → list_any is_line_feed line ≡ false
        → IsOpened json old (Some h) (Ok tt) → IsAnswerTo h command line text accepted
        → IsWrittenOverJson json command line other also
        → (text ≡ other) × (accepted ≡ also) }
{
    calls_answer_as_the_program();
    input_determines_output();
}
