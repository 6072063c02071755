//! Shared sessions as one session. Each law is the contract of a function that does nothing, or calls those that it
//! rests on.
//!
//! Laws of what statements depend on and what they change. Each is the contract of a function that does nothing.
ghost use Rattle.std.specs.Prelude.{◌≡◌, ◌≢◌, ◌++◌, ℕ, List, ◌&&◌, Bool, true, false, not, Some, map};
ghost use Rattle.std.specs.declared.cmp.Ordering.TheVariants.{Less};
ghost use Rattle.std.specs.Ordering.{nat_cmp};
ghost use Rattle.std.specs.Cmp.Lexicographic.{slice_cmp};
ghost use Rattle.ded_lex.specs.Pieces.{Statement, Whole};
ghost use Rattle.ded_model.specs.Catalogue.{Catalogue};
ghost use Rattle.ded_session.specs.Replies.{done, ReplyForm};
ghost use Rattle.ded_session.specs.Runs.{empty_catalogue};
ghost use Rattle.ded_shared.specs.Culprits.{HasCulprit};
ghost use Rattle.ded_shared.specs.Events.{serial, inside};
ghost use Rattle.ded_shared.specs.Forms.{SharedForm, plain, conflict};
ghost use Rattle.ded_shared.specs.PlainNames.{HavePlainNames};
ghost use Rattle.ded_shared.specs.Rules.{SharedStep, SharedSteps};
ghost use Rattle.ded_shared.specs.Serial.{AreSteps};
ghost use Rattle.ded_shared.specs.State.{Transaction, State, is_among, transaction_of, first_state};
ghost use Rattle.ded_shared.specs.Tags.{Tagged, begins, commits, AreTagged, IsTagged};
ghost use Rattle.ded_shared.specs.Texts.{shared_text, shared_texts};
ghost use Rattle.ded_model.specs.declared.command.Language.TheVariants.{One};
ghost use Rattle.ded_model.specs.Command.{CommandForm};
ghost use Rattle.ded_model.specs.Known.{IsWellFormed};
ghost use Rattle.ded_syntax.specs.Spelling.{Spells};
ghost use Rattle.ded_shared.specs.Agreeing.{Agree};
ghost use Rattle.ded_shared.specs.Touching.{touches, changes, depends_on_names};
ghost use Rattle.ded_session.specs.Steps.{Step};

/// Each statement is some tagged one: the rules say of all what they are answered.
pub fn tagged_statements()
    ensures { (s : Statement) → (x : Tagged) × IsTagged s x }
{}

/// A statement is one tagged statement alone, and statements one after another are one list of tagged ones.
pub fn one_tag()
    ensures one { (s : Statement) (x y : Tagged) → IsTagged s x → IsTagged s y → x ≡ y }
    ensures all { (statements : List Statement) (xs ys : List Tagged) → AreTagged statements xs
        → AreTagged statements ys → xs ≡ ys }
{}

/// The statements outside of transactions and those of committed ones, in the order of their ends and with the replies
/// that they got, are steps of one session from the catalogue without entries to the shared one.
pub fn serial()
    ensures { (limit : ℕ) (statements : List Statement) (xs : List Tagged) (replies : List SharedForm) (t : State)
        → AreTagged statements xs
        → SharedSteps (first_state limit) xs replies t → AreSteps (empty_catalogue limit) (serial xs replies) t.shared }
{
    ded_session::laws::formed_catalogues();
}

/// The statements of each transaction, also of one that is given up, are with their replies steps of one session from
/// the shared catalogue at its begin.
pub fn transactions()
    ensures { (limit : ℕ) (statements more : List Statement) (before later : List Tagged)
        (got answers : List SharedForm) (k : ℕ) (s u t : State)
        → AreTagged statements before → SharedSteps (first_state limit) before got s
        → SharedStep s (begins k) (plain done) u
        → AreTagged more later → SharedSteps u later answers t
        → (end : Catalogue) × AreSteps s.shared (inside k later answers) end }
{
    ded_session::laws::formed_catalogues();
}

/// Where a commit conflicts at a name, the session had begun its transaction, and a statement behind that begin changed
/// the name: another session's commit, or an accepted command outside of transactions. No lesser name that the
/// transaction touched was changed so; and where a commit is done, none was.
pub fn conflicts()
    ensures culprit { (limit : ℕ) (statements : List Statement) (xs : List Tagged) (replies : List SharedForm)
        (statement : Statement) (k : ℕ) (s t : State) (n : List ℕ)
        → AreTagged statements xs → SharedSteps (first_state limit) xs replies s → IsTagged statement (commits k)
        → SharedStep s (commits k) (conflict n) t
        → HasCulprit (first_state limit) k n xs replies s }
    ensures least { (limit : ℕ) (statements : List Statement) (xs : List Tagged) (replies : List SharedForm)
        (statement : Statement) (k : ℕ) (s t : State) (n m : List ℕ) (x : Transaction)
        → AreTagged statements xs → SharedSteps (first_state limit) xs replies s → IsTagged statement (commits k)
        → SharedStep s (commits k) (conflict n) t
        → transaction_of s k ≡ Some x → is_among x.touched m ≡ true → HasCulprit (first_state limit) k m xs replies s
        → slice_cmp nat_cmp m n ≢ Less }
    ensures free { (limit : ℕ) (statements : List Statement) (xs : List Tagged) (replies : List SharedForm)
        (statement : Statement) (k : ℕ) (s t : State) (n : List ℕ) (x : Transaction)
        → AreTagged statements xs → SharedSteps (first_state limit) xs replies s → IsTagged statement (commits k)
        → SharedStep s (commits k) (plain done) t
        → transaction_of s k ≡ Some x → is_among x.touched n ≡ true
        → HasCulprit (first_state limit) k n xs replies s → ⊥ }
{}

/// In each state to which tagged statements lead, the names in all catalogues are words of the grammar.
pub fn plain_names()
    ensures first { (limit : ℕ) → HavePlainNames (first_state limit) }
    ensures step { (s t : State) (x : Tagged) (reply : SharedForm) → HavePlainNames s
        → SharedStep s x reply t → HavePlainNames t }
{}

/// The bytes written tell the replies one after another: of two replies that a tagged statement may get in a state
/// whose names are words of the grammar, no text is a proper front of the other's.
pub fn one_text()
    ensures { (s t u : State) (x : Tagged) (reply other : SharedForm) (xs ys : List ℕ) → HavePlainNames s
        → SharedStep s x reply t → SharedStep s x other u
        → shared_text reply ++ xs ≡ shared_text other ++ ys → (shared_text reply ≡ shared_text other) × (xs ≡ ys) }
{}

/// Two runs of the same tagged statements that write the same bytes have replies of the same texts, one by one, and
/// leave one shared catalogue.
pub fn one_run()
    ensures { (limit : ℕ) (statements : List Statement) (xs : List Tagged) (replies others : List SharedForm)
        (s t : State) → AreTagged statements xs
        → SharedSteps (first_state limit) xs replies s → SharedSteps (first_state limit) xs others t
        → shared_texts replies ≡ shared_texts others
        → (map shared_text replies ≡ map shared_text others) × (s.shared ≡ t.shared) }
{
    ded_session::laws::formed_catalogues();
    ded_session::laws::plain_names();
}

/// A statement may get its reply over each catalogue that agrees on the names that it touches, where the reply depends
/// on names; and then it makes alike catalogues, which agree on as many names.
pub fn same_replies()
    ensures { (c d e : Catalogue) (bytes : List ℕ) (reply : ReplyForm) (among : List ℕ → Bool) → IsWellFormed c
        → IsWellFormed d → Agree c d among
        → Step One c (Whole bytes) reply e
        → ((x : CommandForm) (depth : ℕ) → Spells One bytes x depth → (n : List ℕ)
        → (depends_on_names reply && touches c x n) ≡ true → among n ≡ true)
        → (f : Catalogue) × Step One d (Whole bytes) reply f × Agree e f among }
{}

/// A statement changes nothing of the names that its command doesn't change, and where it spells no command, nothing.
pub fn unchanged_names()
    ensures spelled { (c e : Catalogue) (bytes : List ℕ) (reply : ReplyForm) (x : CommandForm)
        (depth : ℕ) → IsWellFormed c
        → Step One c (Whole bytes) reply e → Spells One bytes x depth → Agree c e (λ n. not (changes c x reply n)) }
    ensures other { (c e : Catalogue) (bytes : List ℕ) (reply : ReplyForm) → Step One c (Whole bytes) reply e
        → ((x : CommandForm) (depth : ℕ) → Spells One bytes x depth → false ≡ true) → e ≡ c }
{}

/// The names that a command changes are among those that it touches.
pub fn changed_names()
    ensures { (c : Catalogue) (x : CommandForm) (reply : ReplyForm) (n : List ℕ) → IsWellFormed c
        → changes c x reply n ≡ true → touches c x n ≡ true }
{}
