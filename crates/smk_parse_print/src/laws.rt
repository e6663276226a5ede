//! The laws of what is written.

ghost use Rattle.std.specs.Prelude.{◌≡◌, List, Ok};
ghost use Rattle.smk_lex.specs.Pieces.{Bytes};
ghost use Rattle.smk_lex.specs.Layout.{lexed};
ghost use Rattle.smk_parse_print.specs.Texts.{IsSpelled};
ghost use Rattle.smk_parse_print.specs.Lines.{Line, AreLines, written, tokens_of};
ghost use Rattle.smk_parse_print.specs.Rows.{Row, AreRows, ReadsBack};
ghost use Rattle.smk_parse_print.specs.Print.{printed_bytes};
ghost use Rattle.smk_parse_print.specs.Aside.{IsParsed, ReadsAs};
ghost use Rattle.smk_parse_tree.specs.declared.syntax.Syntax.{Syntax as Whole};

/// What is spelled of a text reads back as that text.
pub fn texts_read_back()
    ensures { (t : Bytes) → IsSpelled t }
{}

/// The lexemes of lines that are written one below the other are the tokens of what is written.
pub fn lines_read_back()
    ensures { (ls : List Line) → AreLines 0 ls → lexed (written ls) ≡ Ok (tokens_of 0 0 ls) }
{}

/// Rows of symbols that are written one below the other read back as these symbols.
pub fn rows_read_back()
    ensures { (rs : List Row) → AreRows 0 rs → ReadsBack rs }
{}

/// What is printed of a syntax that some file has is a file that lexes and parses to the same syntax, lines aside.
pub fn files_read_back()
    ensures { (x : Whole) → IsParsed x → ReadsAs x (printed_bytes x) }
{}
