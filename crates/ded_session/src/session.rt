//! A session: the catalogue that the statements so far have made, and the lists that are held of its kept views.

ghost use Rattle.std.specs.Prelude.{◌≡◌};
ghost use Rattle.ded_session.specs.Runs.{next_language};

use crate::command::answer;
use crate::reply::Reply;
use crate::statement::{is_header_in, reply_to};
use ded_catalog::Catalogue;
use ded_database::Database;
use ded_lex::Piece;
use ded_model::command::{Command, Language, Refusal};
use ded_model::memory::NoMemory;
use ded_model::name::Name;
use ded_model::tuple::Tuple;
use std::alloc::Global;

/// The state of a script between two statements.
#[derive(Drop)]
pub struct Session {
    database: Database,
    language: Language,
    alloc: Global,
}

impl Session {
    ghost use Rattle.std.specs.Prelude.{◌≡◌, ◌≤◌, true, false, IsOk, IfOk, IfErr, IfSome, length};
    ghost use Rattle.std.specs.Option.{option_map};
    ghost use Rattle.ded_lex.specs.Pieces.{Whole, IsShortPiece};
    ghost use Rattle.ded_model.specs.Command.{command_form};
    ghost use Rattle.ded_model.specs.LongRows.{has_long_row};
    ghost use Rattle.ded_model.specs.Plain.{IsPlainCommand};
    ghost use Rattle.ded_relation.specs.Hashing.{keyed};
    ghost use Rattle.ded_catalog.specs.State.{catalogue_of};
    ghost use Rattle.ded_database.specs.State.{is_kept, IsSound};
    ghost use Rattle.ded_database.specs.Held.{held_under, IsListOf};
    ghost use Rattle.ded_session.specs.Answered.{reply_form};
    ghost use Rattle.ded_session.specs.Carrying.{Answers};
    ghost use Rattle.ded_session.specs.Keeping.{Upholds, UpholdsPiece, UpholdsStatement};
    ghost use Rattle.ded_session.specs.Pieces.{StepsPiece, GoesOnPiece};
    ghost use Rattle.ded_session.specs.PlainNames.{NamesPlainly};
    ghost use Rattle.ded_session.specs.Replies.{refused};
    ghost use Rattle.ded_session.specs.Runs.{next_language, GoesOn};
    ghost use Rattle.ded_session.specs.State.{catalogue_in, hashing_in, language_in, state_in, IsFreshSession};
    ghost use Rattle.ded_session.specs.State.{IsResumed};
    ghost use Rattle.ded_session.specs.Steps.{Step};

    /// A session with an empty catalogue whose relations have at most `limit` tuples, 1 to 1,000,000, and no kept view.
    /// Names are hashed with keys that are known to all.
    ///
    /// # Errors
    /// None: nothing is allocated before the first name is defined.
    pub fn new(alloc: Global, limit: u32) -> Result<Session, NoMemory>
        requires low { 1 ≤ limit }
        requires high { limit ≤ 1000000 }
        ensures made { IsOk result }
        ensures fresh { IfOk result (IsFreshSession limit) }
    {
        Ok(Session::hashed_with(alloc, limit, (0, 0)))
    }

    /// A session with an empty catalogue whose relations have at most `limit` tuples, 1 to 1,000,000, and no kept view.
    /// Names are hashed with these keys: where they are drawn at random, nobody can choose names that are slow to find.
    #[tactic(auto, unfolding(crate::specs::State::catalogue_in, crate::specs::State::language_in, crate::specs::State::state_in, crate::specs::State::hashing_in))]
    pub fn hashed_with(alloc: Global, limit: u32, keys: (u64, u64)) -> Session
        requires low { 1 ≤ limit }
        requires high { limit ≤ 1000000 }
        ensures fresh { IsFreshSession limit result }
        ensures hashed { hashing_in result ≡ keyed keys }
    {
        Session {
            database: Database::new(alloc, limit, keys),
            language: Language::Opening,
            alloc,
        }
    }

    /// A session of language 1 with this catalogue and no kept view.
    ///
    /// # Errors
    /// None: nothing is allocated before the first statement. The catalogue would be handed back.
    #[tactic(auto, unfolding(crate::specs::State::catalogue_in, crate::specs::State::language_in, crate::specs::State::state_in))]
    pub fn resume(alloc: Global, catalogue: Catalogue) -> Result<Session, Catalogue>
        ensures made { IsOk result }
        ensures resumed { IfOk result (IsResumed (catalogue_of catalogue)) }
        ensures handed_back { IfErr result (λ c. catalogue_of c ≡ catalogue_of catalogue) }
    {
        Ok(Session {
            database: Database::over(alloc, catalogue),
            language: Language::One,
            alloc,
        })
    }

    /// The present catalogue alone. It doesn't allocate.
    #[tactic(auto, unfolding(crate::specs::State::catalogue_in))]
    pub fn into_catalogue(self) -> Catalogue
        ensures { catalogue_of result ≡ catalogue_in self }
    {
        self.database.into_catalogue()
    }

    /// The present catalogue. It doesn't allocate.
    #[tactic(auto, unfolding(crate::specs::State::catalogue_in))]
    pub fn catalogue(&self) -> &Catalogue
        ensures { catalogue_of result.now ≡ catalogue_in self.now }
    {
        self.database.catalogue()
    }

    /// Says that every session is sound: its catalogue is well formed, and marks and lists are right over it. It does
    /// nothing.
    #[tactic(auto, unfolding(crate::specs::State::state_in))]
    pub fn sound(&self)
        ensures { IsSound (state_in self.now) }
    {
        self.database.sound()
    }

    /// The list that is held of a kept view: its tuples hold exactly where the view's formula does over the present
    /// catalogue. None where no list is held. It doesn't allocate.
    #[tactic(auto, unfolding(crate::specs::State::catalogue_in, crate::specs::State::state_in))]
    pub fn kept(&self, name: &Name) -> Option<&[Tuple]>
        ensures held { option_map (λ ts. ts.now) result ≡ held_under (state_in self.now).held name.now }
        ensures list { IfSome result (λ ts. IsListOf (catalogue_in self.now) name.now ts.now) }
        ensures marked { IfSome result (λ ts. is_kept (state_in self.now) name.now ≡ true) }
    {
        self.database.kept(name)
    }

    /// How often a list was extended by one tuple alone, up to the greatest number. It doesn't allocate.
    #[tactic(auto, unfolding(crate::specs::State::state_in))]
    pub fn added(&self) -> u64
        ensures { result ≡ (state_in self.now).added }
    {
        self.database.added()
    }

    /// Answers the next statement and changes the catalogue as the rules say. A refused statement changes nothing. Of
    /// `Long`, of `Cut` and of the header it doesn't allocate.
    pub fn step(&mut self, piece: Piece<'_>) -> Reply
        requires { IsShortPiece piece }
        ensures step { StepsPiece piece.entry (language_in self.old) (catalogue_in self.old) (reply_form result)
            (catalogue_in self.new) }
        ensures language { GoesOnPiece (language_in self.old) piece.entry (language_in self.new) }
        ensures upholds { UpholdsStatement piece.entry (language_in self.old) (reply_form result)
            (state_in self.old) (state_in self.new) }
    {
        match piece {
            Piece::Whole(bytes) => self.step_whole(bytes),
            Piece::Long => self.refuse(Refusal::LongStatement),
            Piece::Cut => self.refuse(Refusal::Unfinished),
        }
    }

    /// Answers the next statement, given by the command that it spells, and changes the catalogue as the rules say. By
    /// [`laws::read_commands`](crate::laws::read_commands) that is what [`Session::step`] does with the bytes that
    /// spell it.
    #[tactic(auto, unfolding(crate::specs::State::catalogue_in, crate::specs::State::language_in, crate::specs::State::state_in))]
    pub fn answer(&mut self, command: Command) -> Reply
        requires plain { IsPlainCommand (command_form command) }
        requires short { has_long_row (command_form command) ≡ false }
        requires named { NamesPlainly (command_form command) }
        ensures answers { Answers (command_form command) (catalogue_in self.old) (reply_form result)
            (catalogue_in self.new) }
        ensures language { language_in self.new ≡ next_language (language_in self.old) }
        ensures upholds { Upholds (command_form command) (reply_form result) (state_in self.old) (state_in self.new) }
    {
        let reply = answer(self.alloc, command, &mut self.database);
        self.language = after(self.language);
        reply
    }

    /// Answers the next statement with the refusal, and changes nothing but the language.
    #[tactic(auto, unfolding(crate::specs::State::catalogue_in, crate::specs::State::language_in, crate::specs::State::state_in))]
    fn refuse(&mut self, refusal: Refusal) -> Reply
        ensures reply { reply_form result ≡ refused refusal }
        ensures state { state_in self.new ≡ state_in self.old }
        ensures catalogue { catalogue_in self.new ≡ catalogue_in self.old }
        ensures language { language_in self.new ≡ next_language (language_in self.old) }
    {
        self.language = after(self.language);
        Reply::Refused(refusal)
    }

    /// Answers the next statement, given by its bytes, and changes the catalogue as the rules say.
    #[tactic(auto, unfolding(crate::specs::State::catalogue_in, crate::specs::State::language_in, crate::specs::State::state_in))]
    fn step_whole(&mut self, bytes: &[u8]) -> Reply
        requires { length bytes.now ≤ 65536 }
        ensures step { Step (language_in self.old) (catalogue_in self.old) (Whole bytes.now) (reply_form result)
            (catalogue_in self.new) }
        ensures language { GoesOn (language_in self.old) (Whole bytes.now) (language_in self.new) }
        ensures upholds { UpholdsPiece (language_in self.old) bytes.now (reply_form result)
            (state_in self.old) (state_in self.new) }
    {
        if is_header_in(self.language, bytes) {
            self.language = Language::Two;
            return Reply::Done;
        }
        let reply = reply_to(self.alloc, bytes, self.language, &mut self.database);
        self.language = after(self.language);
        reply
    }
}

/// The language of the statements that follow one in this language that isn't the header.
fn after(language: Language) -> Language
    ensures { result ≡ next_language language }
{
    match language {
        Language::Opening | Language::One => Language::One,
        Language::Two => Language::Two,
    }
}
