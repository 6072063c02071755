//! Laws of the rules and of the texts of replies. Each is the contract of a function that does nothing but call the
//! laws that it rests on.
ghost use Rattle.std.specs.Prelude.{◌≡◌, ◌≤◌, ◌++◌, ◌↔◌, true, false, None, List, ℕ, length};
ghost use Rattle.ded_lex.specs.Pieces.{Statement, Whole};
ghost use Rattle.ded_model.specs.declared.command.Language.{Language};
ghost use Rattle.ded_model.specs.declared.command.Language.TheVariants.{One, Two};
ghost use Rattle.ded_model.specs.declared.name.Column.{Column};
ghost use Rattle.ded_model.specs.declared.command.Refusal.TheVariants.{Wide};
ghost use Rattle.ded_model.specs.Catalogue.{Catalogue};
ghost use Rattle.ded_model.specs.Command.{CommandForm};
ghost use Rattle.ded_model.specs.Known.{IsWellFormed};
ghost use Rattle.ded_model.specs.LongRows.{has_long_row};
ghost use Rattle.ded_model.specs.Plain.{IsPlainCommand};
ghost use Rattle.ded_model.specs.Row.{Atom};
ghost use Rattle.ded_syntax.specs.Spelling.{IsRead, Spells};
ghost use Rattle.ded_database.specs.Held.{held_under};
ghost use Rattle.ded_database.specs.Upkeep.{IsTightView};
ghost use Rattle.ded_database.specs.State.{State, catalogue_at, is_kept, IsSound};
ghost use Rattle.ded_session.specs.Carrying.{Answers};
ghost use Rattle.ded_session.specs.Histories.{Turn, AreTurns, last_state, IsLost};
ghost use Rattle.ded_session.specs.Pairs.{AreOfOne, SpeaksPlainly};
ghost use Rattle.ded_session.specs.PlainNames.{HasPlainNames, NamesPlainly};
ghost use Rattle.ded_session.specs.Replies.{ReplyForm, is_refusal, refused, stored};
ghost use Rattle.ded_session.specs.Runs.{Run, Steps, accepted, accepted_replies, script_of};
ghost use Rattle.ded_session.specs.Steps.{Accepts, IsHeaderIn, Step};
ghost use Rattle.ded_session.specs.Texts.{text_of};
ghost use Rattle.ded_session.specs.Widths.{IsNotNarrow};

/// A statement over a catalogue shows one list of tuples at most.
pub fn one_list()
    ensures { (language : Language) (c d e : Catalogue) (s : Statement) (h k : List Column)
        (ts us : List (ℕ × List Atom)) →
        Step language c s (stored h ts) d → Step language c s (stored k us) e → (h ≡ k) × (ts ≡ us) }
{}

/// Each name that a command has is a word of the grammar, or made of one.
pub fn spelled_names()
    ensures { (language : Language) (bytes : List ℕ) (command : CommandForm) (depth : ℕ) →
        Spells language bytes command depth → NamesPlainly command }
{}

/// A command that is read of bytes is plain, has no long row and names words of the grammar; and what it may be
/// answered over a catalogue, the statement of these bytes may be answered, unless it is the header.
pub fn read_commands()
    ensures plain { (language : Language) (bytes : List ℕ) (command : CommandForm) → IsRead language bytes command
        → IsPlainCommand command }
    ensures short { (language : Language) (bytes : List ℕ) (command : CommandForm) → IsRead language bytes command
        → has_long_row command ≡ false }
    ensures named { (language : Language) (bytes : List ℕ) (command : CommandForm) → IsRead language bytes command
        → NamesPlainly command }
    ensures step { (language : Language) (bytes : List ℕ) (command : CommandForm) (c d : Catalogue)
        (reply : ReplyForm) → length bytes ≤ 65536
        → IsRead language bytes command → (IsHeaderIn language (Whole bytes) → ⊥) → Answers command c reply d
        → Step language c (Whole bytes) reply d }
{}

/// Each catalogue to which a step leads from one whose names are words of the grammar has such names too, and so has
/// each to which a run leads.
pub fn plain_names()
    ensures step { (language : Language) (c d : Catalogue) (s : Statement) (reply : ReplyForm) → HasPlainNames c →
        Step language c s reply d → HasPlainNames d }
    ensures steps { (language : Language) (c d : Catalogue) (ss : List Statement)
        (replies : List ReplyForm) → HasPlainNames c →
        Steps language c ss replies d → HasPlainNames d }
    ensures run { (limit : ℕ) (script : List ℕ) (replies : List ReplyForm) (last : Catalogue) →
        Run limit script replies last → HasPlainNames last }
{}

/// Of two replies that a statement may get over a catalogue whose names are words of the grammar: the names in each are
/// such words, or in a plan made of such words, and both are of one kind where none is a refusal. A statement has one
/// box at most.
pub fn two_replies()
    ensures plain { (language : Language) (c d : Catalogue) (s : Statement) (reply : ReplyForm) → HasPlainNames c →
        Step language c s reply d → SpeaksPlainly reply }
    ensures pair { (language : Language) (c d e : Catalogue) (s : Statement) (reply other : ReplyForm) →
        Step language c s reply d → Step language c s other e → AreOfOne reply other }
{}

/// The bytes written tell the replies one after another: of two replies that a statement may get over a catalogue no
/// text is a proper front of the other's. The names of the catalogue are words of the grammar, as those of each
/// catalogue are to which statements lead from the empty one.
pub fn one_text()
    ensures { (language : Language) (c d e : Catalogue) (s : Statement) (reply other : ReplyForm) (xs ys : List ℕ) →
        HasPlainNames c → Step language c s reply d → Step language c s other e →
        text_of reply ++ xs ≡ text_of other ++ ys → (text_of reply ≡ text_of other) × (xs ≡ ys) }
{}

/// A statement that is accepted makes one catalogue of a well formed one, whatever its reply. So where the texts of two
/// replies begin the same bytes, both leave one catalogue.
pub fn one_catalogue()
    ensures accepted { (language : Language) (c d e : Catalogue) (s : Statement) (reply other : ReplyForm)
        → IsWellFormed c → Step language c s reply d → Step language c s other e
        → is_refusal reply ≡ false → is_refusal other ≡ false → d ≡ e }
    ensures told { (language : Language) (c d e : Catalogue) (s : Statement) (reply other : ReplyForm) (xs ys : List ℕ)
        → IsWellFormed c → HasPlainNames c → Step language c s reply d → Step language c s other e
        → text_of reply ++ xs ≡ text_of other ++ ys → d ≡ e }
{}

/// What a statement may be answered in the plain language where it is accepted, it may be answered in the second one,
/// and it leaves the same catalogue. A statement that spells a command of the plain language may be answered the same
/// in both, refusals included.
pub fn second_language()
    ensures accepted { (c d : Catalogue) (s : Statement) (reply : ReplyForm) → is_refusal reply ≡ false
        → Step One c s reply d → Step Two c s reply d }
    ensures spelled { (bytes : List ℕ) (command : CommandForm) (depth : ℕ) → Spells One bytes command depth
        → (c d : Catalogue) (reply : ReplyForm) → Step One c (Whole bytes) reply d ↔ Step Two c (Whole bytes) reply d }
{}

/// A statement makes a well formed catalogue of one, so each catalogue to which a run leads is well formed.
pub fn formed_catalogues()
    ensures step { (language : Language) (c d : Catalogue) (s : Statement) (reply : ReplyForm) → IsWellFormed c →
        Step language c s reply d → IsWellFormed d }
    ensures run { (limit : ℕ) (script : List ℕ) (replies : List ReplyForm) (last : Catalogue) →
        Run limit script replies last → IsWellFormed last }
{
    ded_resolve::laws::normal_goals();
}

/// A statement over a well formed catalogue, as each is to which a run leads, is refused as too wide only where it is
/// accepted, and what it asks isn't narrow.
pub fn wide_questions()
    ensures step { (language : Language) (c d : Catalogue) (s : Statement) → IsWellFormed c
        → Step language c s (refused Wide) d
        → Accepts language s c (λ command. IsNotNarrow command c) }
    ensures run { (limit : ℕ) (script : List ℕ) (replies : List ReplyForm) (c : Catalogue) → Run limit script replies c
        → (language : Language) (s : Statement) (d : Catalogue) → Step language c s (refused Wide) d
        → Accepts language s c (λ command. IsNotNarrow command c) }
{
    formed_catalogues();
}

/// The statements of a run that are not refused, with their replies, are a run with the same last catalogue.
pub fn accepted_statements()
    ensures steps { (language : Language) (c d : Catalogue) (ss : List Statement) (replies : List ReplyForm) →
        Steps language c ss replies d → Steps language c (accepted ss replies) (accepted_replies replies) d }
    ensures run { (limit : ℕ) (script : List ℕ) (replies : List ReplyForm) (last : Catalogue)
        → (run : Run limit script replies last) →
        Run limit (script_of (accepted run.statements replies)) (accepted_replies replies) last }
{}

/// Over pieces one after another, whole, long or cut, no list is held of a kept view only where its formula isn't
/// tight, or where a list may have been lost: an insert or a delete in a relation that the view reaches was refused as
/// out of memory, and since then none was accepted there, nor a `keep` of the view.
pub fn lost_lists()
    ensures { (language : Language) (s : State) (turns : List Turn) (v : List ℕ) → IsSound s
        → AreTurns language s turns → is_kept s v ≡ false
        → is_kept (last_state s turns) v ≡ true → IsTightView (catalogue_at (last_state s turns)) v
        → held_under (last_state s turns).held v ≡ None
        → IsLost language s turns v }
{}
