//! Laws of what a run leads to: dumps, orderly questions, and answers that are read back. Each is the contract of a
//! function that does nothing but call the laws that it rests on.
//!
//! Laws of certificates that are checked again as they were printed. Each is the contract of a function that does
//! nothing but call the laws that it rests on.
ghost use Rattle.std.specs.Prelude.{◌≡◌, ◌↔◌, ◌≤◌, ◌<◌, ℕ, Bool, IsTrue, List, length, ◌⊎◌, ◌∷◌, ◌++◌, true, map};
ghost use Rattle.std.specs.List.{AllByRecursion};
ghost use Rattle.ded_lex.specs.Pieces.{Statement, Whole, IsWhole};
ghost use Rattle.ded_model.specs.declared.command.Language.{Language};
ghost use Rattle.ded_model.specs.declared.command.Refusal.TheVariants.{Wide, LongStatement, Memory};
ghost use Rattle.ded_model.specs.declared.name.Column.{Column};
ghost use Rattle.ded_model.specs.Catalogue.{Catalogue, IsTruth, stored};
ghost use Rattle.ded_model.specs.Entries.{known};
ghost use Rattle.ded_model.specs.Form.{Form};
ghost use Rattle.ded_model.specs.Known.{IsWellFormed};
ghost use Rattle.ded_model.specs.Measure.{stored_measures};
ghost use Rattle.ded_model.specs.Row.{Atom};
ghost use Rattle.ded_model.specs.ShortRows.{HasShortRows};
ghost use Rattle.ded_model.specs.Value.{Argument};
ghost use Rattle.ded_model.specs.Width.{tuple_length};
ghost use Rattle.ded_dump.specs.Entries.{dump_lines};
ghost use Rattle.ded_readback.specs.Plain.{IsPlainHeading};
ghost use Rattle.ded_readback.specs.Spelling.{SpellsAnswer};
ghost use Rattle.ded_session.specs.PlainNames.{HasPlainNames};
ghost use Rattle.ded_session.specs.Replies.{ReplyForm, tuples, stored as shown, refused, truth, apart};
ghost use Rattle.ded_session.specs.Runs.{Steps, Run};
ghost use Rattle.ded_session.specs.Steps.{Accepts, Step};
ghost use Rattle.ded_session.specs.Texts.{text_of, texts};
ghost use Rattle.ded_runs.specs.Orderly.{IsOrderlyQuestion, IsOrderlyAnswer};
ghost use Rattle.ded_runs.specs.Read.{WasCatalogueRead};
ghost use Rattle.ded_runs.specs.Remade.{remade, script_of_lines, joined_lines};
ghost use Rattle.ded_runs.specs.Runs.{WantsNone};
ghost use Rattle.ded_model.specs.declared.certificate.Entry.{Entry};
ghost use Rattle.ded_model.specs.Command.{ask, disjoint, verify};
ghost use Rattle.ded_print.specs.Certificates.{apart_text, entry_line};
ghost use Rattle.ded_syntax.specs.Spelling.{IsRead, Spells};
ghost use Rattle.ded_runs.specs.Few.{HaveFewInserts};
ghost use Rattle.ded_runs.specs.Lines.{HasLines};
ghost use Rattle.ded_runs.specs.Rechecks.{IsRecheck};

/// Each entry of a catalogue to which a run leads was read, so no comparison and no argument of its views has a long
/// row.
pub fn read_catalogues()
    ensures step { (language : Language) (c d : Catalogue) (s : Statement) (reply : ReplyForm) → WasCatalogueRead c
        → Step language c s reply d → WasCatalogueRead d }
    ensures steps { (language : Language) (c d : Catalogue) (ss : List Statement)
        (replies : List ReplyForm) → WasCatalogueRead c
        → Steps language c ss replies d → WasCatalogueRead d }
    ensures run { (limit : ℕ) (script : List ℕ) (replies : List ReplyForm) (last : Catalogue) →
        Run limit script replies last → WasCatalogueRead last }
    ensures short { (c : Catalogue) → WasCatalogueRead c → AllByRecursion HasShortRows c.entries }
{
    ded_reread::laws::read_words();
}

/// Of the remade catalogue the same is known, its names mean the same of all values, and they have the same greatest
/// length and the same rank.
pub fn remade_catalogues()
    ensures known { (c : Catalogue) → known (remade c) ≡ known c }
    ensures meaning { (c : Catalogue) → WasCatalogueRead c → IsWellFormed c
        → (n : List ℕ) (den : ℕ) (xs : List Argument) → 0 < den
        → stored (remade c) n den xs ↔ stored c n den xs }
    ensures b { (c : Catalogue) → WasCatalogueRead c → IsWellFormed c → (n : List ℕ)
        → (stored_measures (remade c) n).b ≡ (stored_measures c n).b }
    ensures rank { (c : Catalogue) → WasCatalogueRead c → IsWellFormed c → (n : List ℕ)
        → (stored_measures (remade c) n).rank ≡ (stored_measures c n).rank }
{
    ded_reread::laws::read_formulas();
    ded_reread::laws::alike_formulas();
}

/// The lines of a catalogue to which a run leads, each of at most 65,536 bytes, as a script of a session with the same
/// limit, at most 1,000,000: where no reply is that memory is wanted, they leave the remade catalogue.
pub fn dumps()
    ensures { (limit : ℕ) (script : List ℕ) (replies others : List ReplyForm) (c d : Catalogue)
        → limit ≤ 1000000 → Run limit script replies c
        → AllByRecursion (λ (l : List ℕ). length l ≤ 65536) (dump_lines c)
        → Run limit (script_of_lines (dump_lines c)) others d → WantsNone others → d ≡ remade c }
{
    read_catalogues();
    ded_session::laws::formed_catalogues();
    ded_reread::laws::read_words();
    ded_reread::laws::read_lines();
    ded_reread::laws::read_formulas();
    ded_reread::laws::read_tuples();
}

/// Over a catalogue to which a run leads no orderly question is refused as too wide. The answer to an orderly query has
/// nothing superfluous, and its rows are order rows: each compares two columns, or has the coefficient and the constant
/// of a row with one slot that the formula reaches, up to the sign of both.
pub fn orderly_questions()
    ensures narrow { (limit : ℕ) (script : List ℕ) (replies : List ReplyForm) (c : Catalogue)
        → Run limit script replies c
        → (language : Language) (s : Statement) (d : Catalogue) → Step language c s (refused Wide) d
        → Accepts language s c (λ command. IsOrderlyQuestion command c → ⊥) }
    ensures answers { (limit : ℕ) (script : List ℕ) (replies : List ReplyForm) (c : Catalogue)
        → Run limit script replies c
        → (language : Language) (s : Statement) (h : List Column) (ts : List (List Atom)) (d : Catalogue)
        → Step language c s (tuples h ts) d
        → Accepts language s c (λ command. IsOrderlyAnswer command c ts) }
{
    read_catalogues();
    ded_session::laws::formed_catalogues();
    ded_width::laws::orderly_formulas();
    ded_width::laws::short_reach();
}

/// Over a catalogue to which a run leads no number in an answer has more than 127 binary digits, and none in a stored
/// tuple that is shown more than 63. So it is over each well formed catalogue of whose views no comparison and no
/// argument has a long row. The heading of an answer is one over which answers are read back.
pub fn short_answers()
    ensures plain { (language : Language) (c d : Catalogue) (s : Statement) (h : List Column) (ts : List (List Atom))
        → Step language c s (tuples h ts) d → IsPlainHeading h }
    ensures run { (limit : ℕ) (script : List ℕ) (replies : List ReplyForm) (c : Catalogue) → Run limit script replies c
        → (language : Language) (s : Statement) (h : List Column) (ts : List (List Atom)) (d : Catalogue)
        → Step language c s (tuples h ts) d
        → AllByRecursion (λ t. tuple_length t ≤ 127) ts }
    ensures run_stored { (limit : ℕ) (script : List ℕ) (replies : List ReplyForm) (c : Catalogue)
        → Run limit script replies c
        → (language : Language) (s : Statement) (h : List Column) (ts : List (ℕ × List Atom)) (d : Catalogue)
        → Step language c s (shown h ts) d
        → AllByRecursion (λ t. tuple_length t.1 ≤ 63) ts }
    ensures step { (language : Language) (c d : Catalogue) (s : Statement) (h : List Column)
        (ts : List (List Atom)) → IsWellFormed c
        → AllByRecursion HasShortRows c.entries → Step language c s (tuples h ts) d
        → AllByRecursion (λ t. tuple_length t ≤ 127) ts }
    ensures stored { (language : Language) (c d : Catalogue) (s : Statement) (h : List Column)
        (ts : List (ℕ × List Atom)) → IsWellFormed c
        → Step language c s (shown h ts) d → AllByRecursion (λ t. tuple_length t.1 ≤ 63) ts }
{
    read_catalogues();
    ded_session::laws::formed_catalogues();
    ded_width::laws::short_lines();
    ded_laws::lines::tuple_lengths();
}

/// What is written of an answer over a catalogue to which a run leads, read back, is the answer: the text of the tuples
/// that a statement gets spells these tuples over their heading, and no others. So it is over each catalogue where the
/// numbers in them have at most 127 binary digits.
pub fn answers_read_back()
    ensures run_spelled { (limit : ℕ) (script : List ℕ) (replies : List ReplyForm) (c : Catalogue)
        → Run limit script replies c
        → (language : Language) (s : Statement) (h : List Column) (ts : List (List Atom)) (d : Catalogue)
        → Step language c s (tuples h ts) d
        → SpellsAnswer (text_of (tuples h ts)) h ts }
    ensures run_only { (limit : ℕ) (script : List ℕ) (replies : List ReplyForm) (c : Catalogue)
        → Run limit script replies c
        → (language : Language) (s : Statement) (h : List Column) (ts us : List (List Atom)) (d : Catalogue)
        → Step language c s (tuples h ts) d
        → SpellsAnswer (text_of (tuples h ts)) h us → us ≡ ts }
    ensures spelled { (language : Language) (c d : Catalogue) (s : Statement) (h : List Column)
        (ts : List (List Atom)) →
        Step language c s (tuples h ts) d → AllByRecursion (λ t. tuple_length t ≤ 127) ts →
        SpellsAnswer (text_of (tuples h ts)) h ts }
    ensures only { (language : Language) (c d : Catalogue) (s : Statement) (h : List Column)
        (ts us : List (List Atom)) →
        Step language c s (tuples h ts) d → AllByRecursion (λ t. tuple_length t ≤ 127) ts →
        SpellsAnswer (text_of (tuples h ts)) h us → us ≡ ts }
{
    short_answers();
}

/// Each relation of a catalogue to which a run leads has accepted at most 2^32 - 1 inserts, and so has each relation of
/// one that a statement makes of a well formed catalogue whose relations have.
pub fn few_inserts()
    ensures step { (language : Language) (c d : Catalogue) (s : Statement) (reply : ReplyForm)
        → IsWellFormed c → HaveFewInserts c
        → Step language c s reply d → HaveFewInserts d }
    ensures run { (limit : ℕ) (script : List ℕ) (replies : List ReplyForm) (last : Catalogue)
        → Run limit script replies last
        → HaveFewInserts last }
{
    ded_session::laws::formed_catalogues();
}

/// What is printed of certificates has a line for each, in order, and no other lines; and it tells the certificates.
pub fn printed_lines()
    ensures lines { (es : List Entry) → HasLines (apart_text es) (map entry_line es) }
    ensures one { (text : List ℕ) (these those : List (List ℕ)) → HasLines text these
        → HasLines text those → these ≡ those }
    ensures told { (es fs : List Entry) → apart_text es ≡ apart_text fs → es ≡ fs }
{}

/// Only `disjoint` is answered by certificates.
pub fn asked_certificates()
    ensures { (language : Language) (c d : Catalogue) (s : Statement) (es : List Entry) → Step language c s (apart es) d
        → Accepts language s c (λ command. (n : List ℕ) × (m : List ℕ) × (command ≡ disjoint n m)) }
{}

/// The lines of a reply to `disjoint` over a catalogue to which a run leads, in braces behind `verify` and the two
/// names, are a piece that `;` ends, and in each language they are read as `verify` with the certificates of the reply.
/// So they are over each well formed catalogue whose relations have accepted as few inserts.
pub fn read_again()
    ensures run_whole { (limit : ℕ) (script : List ℕ) (replies : List ReplyForm) (c : Catalogue)
        → Run limit script replies c
        → (language : Language) (n m : List ℕ) (es : List Entry) (piece : List ℕ) → IsRecheck language c n m es piece
        → (after : List ℕ) → IsWhole piece (59 ∷ after) }
    ensures run_read { (limit : ℕ) (script : List ℕ) (replies : List ReplyForm) (c : Catalogue)
        → Run limit script replies c
        → (language other : Language) (n m : List ℕ) (es : List Entry) (piece : List ℕ)
        → IsRecheck language c n m es piece
        → IsRead other piece (verify n m es) }
    ensures whole { (language : Language) (c : Catalogue) (n m : List ℕ) (es : List Entry)
        (piece : List ℕ) → IsWellFormed c
        → HaveFewInserts c
        → IsRecheck language c n m es piece → (after : List ℕ) → IsWhole piece (59 ∷ after) }
    ensures read { (language other : Language) (c : Catalogue) (n m : List ℕ) (es : List Entry)
        (piece : List ℕ) → IsWellFormed c
        → HaveFewInserts c
        → IsRecheck language c n m es piece → IsRead other piece (verify n m es) }
{
    ded_session::laws::formed_catalogues();
}

/// This statement, of at most 65,536 bytes, may be answered `yes` over the same catalogue, in each language, and may be
/// answered nothing else but that memory is wanted. A longer one is refused as too long. The catalogue stays as it is.
pub fn verified_again()
    ensures run_yes { (limit : ℕ) (script : List ℕ) (replies : List ReplyForm) (c : Catalogue)
        → Run limit script replies c
        → (language other : Language) (n m : List ℕ) (es : List Entry) (piece : List ℕ)
        → IsRecheck language c n m es piece
        → length piece ≤ 65536 → Step other c (Whole piece) (truth true) c }
    ensures run_only { (limit : ℕ) (script : List ℕ) (replies : List ReplyForm) (c : Catalogue)
        → Run limit script replies c
        → (language other : Language) (n m : List ℕ) (es : List Entry) (piece : List ℕ)
        → IsRecheck language c n m es piece
        → length piece ≤ 65536 → (reply : ReplyForm) (d : Catalogue) → Step other c (Whole piece) reply d
        → ((reply ≡ truth true) ⊎ (reply ≡ refused Memory)) × (d ≡ c) }
    ensures yes { (language other : Language) (c : Catalogue) (n m : List ℕ) (es : List Entry)
        (piece : List ℕ) → IsWellFormed c
        → HaveFewInserts c
        → IsRecheck language c n m es piece → length piece ≤ 65536 → Step other c (Whole piece) (truth true) c }
    ensures only { (language other : Language) (c d : Catalogue) (n m : List ℕ) (es : List Entry)
        (piece : List ℕ) (reply : ReplyForm)
        → IsWellFormed c → HaveFewInserts c
        → IsRecheck language c n m es piece → length piece ≤ 65536 → Step other c (Whole piece) reply d
        → ((reply ≡ truth true) ⊎ (reply ≡ refused Memory)) × (d ≡ c) }
    ensures long { (other : Language) (c : Catalogue) (piece : List ℕ) → 65536 < length piece
        → Step other c (Whole piece) (refused LongStatement) c }
    ensures only_long { (other : Language) (c d : Catalogue) (piece : List ℕ) (reply : ReplyForm) → 65536 < length piece
        → Step other c (Whole piece) reply d
        → (reply ≡ refused LongStatement) × (d ≡ c) }
{
    ded_session::laws::formed_catalogues();
}

/// The lines of a catalogue to which a run leads, one behind another without a line feed between them and each of at
/// most 65,536 bytes before its `;`, leave the remade catalogue, too, where no reply is that memory is wanted. There is
/// a run of them in which none is. There is one, too, of the script with a line feed behind each line: it counts to the
/// next statement, so a line has at most 65,535 bytes before its `;` there.
pub fn dump_runs()
    ensures joined { (limit : ℕ) (script : List ℕ) (replies others : List ReplyForm) (c d : Catalogue)
        → limit ≤ 1000000 → Run limit script replies c
        → AllByRecursion (λ (l : List ℕ). length l ≤ 65537) (dump_lines c)
        → Run limit (joined_lines (dump_lines c)) others d → WantsNone others → d ≡ remade c }
    ensures some { (limit : ℕ) (script : List ℕ) (replies : List ReplyForm) (c : Catalogue)
        → limit ≤ 1000000 → Run limit script replies c
        → AllByRecursion (λ (l : List ℕ). length l ≤ 65536) (dump_lines c)
        → (others : List ReplyForm) × Run limit (script_of_lines (dump_lines c)) others (remade c) × WantsNone others }
    ensures some_joined { (limit : ℕ) (script : List ℕ) (replies : List ReplyForm) (c : Catalogue)
        → limit ≤ 1000000 → Run limit script replies c
        → AllByRecursion (λ (l : List ℕ). length l ≤ 65537) (dump_lines c)
        → (others : List ReplyForm) × Run limit (joined_lines (dump_lines c)) others (remade c) × WantsNone others }
{
    read_catalogues();
    ded_session::laws::formed_catalogues();
    ded_reread::laws::read_words();
    ded_reread::laws::read_lines();
    ded_reread::laws::read_formulas();
    ded_reread::laws::read_tuples();
}

/// A statement that is answered `yes` or `no` leaves the catalogue, and unless it spells `verify` it spells `ask` of a
/// formula that is true over the catalogue exactly where the answer is `yes`. Each formula that it spells behind `ask`
/// is such a one.
pub fn truths()
    ensures asks { (language : Language) (c d : Catalogue) (piece : List ℕ) (b : Bool)
        → Step language c (Whole piece) (truth b) d
        → ((n m : List ℕ) (es : List Entry) (depth : ℕ) → Spells language piece (verify n m es) depth → ⊥)
        → (f : Form) × (depth : ℕ) × Spells language piece (ask f) depth × (IsTrue b ↔ IsTruth c f) × (d ≡ c) }
    ensures asked { (language : Language) (c d : Catalogue) (piece : List ℕ) (b : Bool) (f : Form) (depth : ℕ)
        → Step language c (Whole piece) (truth b) d → Spells language piece (ask f) depth
        → (IsTrue b ↔ IsTruth c f) × (d ≡ c) }
{}

/// What is written of a reply over a catalogue to which a run leads tells it: where the texts of two replies that a
/// statement may get, each with any bytes behind it, are the same bytes, the replies are the same, both leave one
/// catalogue, and the bytes behind them are the same. So it is over each well formed catalogue whose names are words of
/// the grammar and of whose views no comparison and no argument has a long row.
pub fn one_reply()
    ensures run { (limit : ℕ) (script : List ℕ) (replies : List ReplyForm) (c : Catalogue) → Run limit script replies c
        → (language : Language) (s : Statement) (reply other : ReplyForm) (d e : Catalogue) (xs ys : List ℕ)
        → Step language c s reply d → Step language c s other e → text_of reply ++ xs ≡ text_of other ++ ys
        → (reply ≡ other) × (d ≡ e) × (xs ≡ ys) }
    ensures step { (language : Language) (c d e : Catalogue) (s : Statement) (reply other : ReplyForm) (xs ys : List ℕ)
        → IsWellFormed c → HasPlainNames c → AllByRecursion HasShortRows c.entries
        → Step language c s reply d → Step language c s other e → text_of reply ++ xs ≡ text_of other ++ ys
        → (reply ≡ other) × (d ≡ e) × (xs ≡ ys) }
{
    read_catalogues();
    ded_session::laws::formed_catalogues();
    ded_session::laws::plain_names();
    ded_width::laws::short_lines();
    ded_laws::lines::tuple_lengths();
}

/// Two runs of one script that write the same bytes have the same replies and leave one catalogue. So do the same
/// statements in each language over a catalogue to which a run leads.
pub fn one_run()
    ensures run { (limit : ℕ) (script : List ℕ) (replies others : List ReplyForm) (c d : Catalogue)
        → Run limit script replies c → Run limit script others d
        → texts replies ≡ texts others → (replies ≡ others) × (c ≡ d) }
    ensures steps { (limit : ℕ) (script : List ℕ) (before : List ReplyForm) (c : Catalogue) → Run limit script before c
        → (language : Language) (ss : List Statement) (replies others : List ReplyForm) (d e : Catalogue)
        → Steps language c ss replies d → Steps language c ss others e
        → texts replies ≡ texts others → (replies ≡ others) × (d ≡ e) }
{
    read_catalogues();
    ded_session::laws::formed_catalogues();
    ded_session::laws::plain_names();
    ded_width::laws::short_lines();
    ded_laws::lines::tuple_lengths();
}
