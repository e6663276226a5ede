//! The grammar, what reads by it, and what prints: laws between the three.

ghost use Rattle.std.specs.Prelude.{◌≡◌, ℕ, List, [], ◌++◌, true, Ok};
ghost use Rattle.smk_parse_expr.specs.declared.symbol.Symbol.{Symbol as Meaning};
ghost use Rattle.smk_parse_tree.specs.declared.syntax.Expr.{Expr as Value};
ghost use Rattle.smk_parse_tree.specs.declared.syntax.ItemForm.{ItemForm as Item};
ghost use Rattle.smk_parse_expr.specs.Symbols.{at_end};
ghost use Rattle.smk_parse_expr.specs.Exprs.{expr};
ghost use Rattle.smk_parse_expr.specs.Items.{items as items_of};
ghost use Rattle.smk_parse_expr.specs.Faults.{IsJudged};
ghost use Rattle.smk_parse_expr.specs.Grammar.{IsExpr, IsItems, HasLetters, StopsSum, StopsItems};
ghost use Rattle.smk_parse_expr.specs.Printing.{printed, printed_items};

/// What is read as an expression is what the grammar spells, and what it spells is read, whatever follows that ends it; symbols
/// spell one expression. What is printed of an expression that was read is read again as that expression. No end is taken, and
/// a fault stands at a symbol that is as the fault says.
pub fn expression_laws()
    ensures found { (depth : ℕ) (i rest : List Meaning) (x : Value) → expr depth i ≡ Ok (x, rest)
        → (xs : List Meaning) × (i ≡ xs ++ rest) × IsExpr depth xs x }
    ensures only { (depth : ℕ) (xs rest : List Meaning) (x : Value) → IsExpr depth xs x → StopsSum rest
        → expr depth (xs ++ rest) ≡ Ok (x, rest) }
    ensures one { (depth : ℕ) (xs : List Meaning) (x y : Value) → IsExpr depth xs x → IsExpr depth xs y → x ≡ y }
    ensures printed { (depth : ℕ) (i rest more : List Meaning) (x : Value) → expr depth i ≡ Ok (x, rest) → StopsSum more
        → expr depth ((printed x).symbols ++ more) ≡ Ok (x, more) }
    ensures judged { (depth : ℕ) (i : List Meaning) → IsJudged i (expr depth i) }
{}

/// The same of items, where each name among the symbols has a letter, as the names of a source have.
pub fn item_laws()
    ensures found { (i rest : List Meaning) (es : List Item) → HasLetters i → items_of i ≡ Ok (es, rest)
        → (xs : List Meaning) × (i ≡ xs ++ rest) × IsItems [] xs es × (at_end rest ≡ true) }
    ensures only { (xs rest : List Meaning) (es : List Item) → IsItems [] xs es → StopsItems rest
        → items_of (xs ++ rest) ≡ Ok (es, rest) }
    ensures one { (xs : List Meaning) (es others : List Item) → IsItems [] xs es → IsItems [] xs others → es ≡ others }
    ensures printed { (i rest more : List Meaning) (es : List Item) → HasLetters i → items_of i ≡ Ok (es, rest) → StopsItems more
        → items_of (printed_items es ++ more) ≡ Ok (es, more) }
    ensures judged { (i : List Meaning) → IsJudged i (items_of i) }
{}
