ghost use Rattle.std.specs.Prelude.{◌≡◌, ◌∷◌, [], All, Bool, false, List, codes, filter, ℕ};
ghost use Rattle.bk_report.specs.declared.item.ReportItem.{ReportItem as Item};
ghost use Rattle.bk_report.specs.Lines.{is_byte_in, line_records_of};
ghost use Rattle.bk_report.specs.Reading.{front};
ghost use Rattle.bk_report.specs.Text.{IsNumbered, answer_of, how_of, lines_of, octal3, octal6, words_of};

/// The line records of a report are the lines of those of its items that are bytes on these lines.
pub fn law_line_records()
    ensures { (set : ℕ → Bool) (items : List Item) → All IsNumbered items
        → line_records_of set (lines_of items) ≡ lines_of (filter (is_byte_in set) items) }
{}

/// Fields of lines, worked out by hand, and two numbers read in front of other text.
pub fn law_example()
    ensures byte { octal3 72 ≡ codes "110" }
    ensures word { octal6 4352 ≡ codes "010400" }
    ensures words { words_of (9 ∷ 65535 ∷ []) ≡ codes " 000011 177777" }
    ensures answer { answer_of 2 ≡ codes "?" }
    ensures how { how_of false ≡ codes "stop" }
    ensures octal { front 8 0 (codes "010400 x") ≡ (4352, codes "x") }
    ensures decimal { front 10 0 (codes "27\n") ≡ (27, []) }
{}
