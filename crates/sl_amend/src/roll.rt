ghost use Rattle.std.specs.Prelude.{◌≡◌, ◌<◌, ◌≤◌, ℕ, ◌∷◌, ◌++◌, [], true, false, length, set, get_or, remove, nat_lt, position, OnOk, OnErr};
ghost use Rattle.std.specs.List.{position_or_len};
ghost use Rattle.sl_types.specs.declared.kinds.TheConstants.{MAX_APPLICANTS, MAX_CHOICES, MAX_SCORE};
ghost use Rattle.sl_instance.specs.Lists.{contents, list_at};
ghost use Rattle.sl_amend.specs.Applied.{with_choice};
ghost use Rattle.sl_amend.specs.Merits.{SameTrees};
ghost use Rattle.sl_amend.specs.Roll.{scored_at, IsRoll, IsAddable, lists_of, programmes};

use crate::merits::Merits;
use sl_types::Entry;
use std::alloc::AllocError;

/// The applicants of a draft, by number.
#[derive(Drop)]
pub struct Roll {
    /// The choices of each, in order of place. Who was withdrawn has none.
    pub lists: Vec<Vec<Entry>>,
    /// Whether each is present.
    pub present: Vec<bool>,
    /// How many are present.
    pub applicants: usize,
    /// How many choices they have together.
    pub applications: usize,
    /// How many of these choices hold each merit of each tree.
    pub merits: Merits,
}

// The first choice of a higher place.
fn first_after(list: &[Entry], place: u32) -> Option<usize>
    ensures { result ≡ position (λ other. nat_lt place other.place) list.now }
{
    list.iter().position(|other| place < other.place)
}

// Where a choice of this place belongs.
#[tactic(auto, using(crate::proofs::Ordered::first_or_end, crate::proofs::Ordered::first_within))]
fn place_in(list: &[Entry], place: u32) -> usize
    ensures place { result ≡ position_or_len (λ other. nat_lt place other.place) list.now }
    ensures within { result ≤ length list.now }
{
    first_after(list, place).unwrap_or(list.len())
}

// Adds a choice at its place.
#[tactic(auto, using(crate::proofs::Ordered::insert_is))]
fn insert_choice(list: &mut Vec<Entry>, choice: Entry) -> Result<(), AllocError>
    ensures ok { OnOk result (list.new.items ≡ with_choice choice list.old.items) }
    ensures err { OnErr result (list.new.items ≡ list.old.items) }
{
    let at = place_in(list, choice.place);
    list.insert(at, choice)?;
    Ok(())
}

// Adds a choice to the list of an applicant.
fn insert_at(lists: &mut [Vec<Entry>], app: usize, choice: Entry) -> Result<(), AllocError>
    requires known { app < length lists.old }
    ensures ok { let more = with_choice choice (list_at lists.old app) in
        OnOk result (contents lists.new ≡ set (contents lists.old) app more) }
    ensures err { OnErr result (contents lists.new ≡ contents lists.old) }
{
    insert_choice(&mut lists[app], choice)?;
    Ok(())
}

// Takes a choice out of the list of an applicant.
fn remove_at(lists: &mut [Vec<Entry>], app: usize, at: usize) -> Entry
    requires known { app < length lists.old }
    requires within { at < length (list_at lists.old app) }
    ensures choice { (d : _) → result ≡ get_or (list_at lists.old app) at d }
    ensures lists { let fewer = remove (list_at lists.old app) at in
        contents lists.new ≡ set (contents lists.old) app fewer }
{
    lists[app].remove(at)
}

// Writes a choice of an applicant.
fn write_at(lists: &mut [Vec<Entry>], app: usize, at: usize, choice: Entry)
    requires known { app < length lists.old }
    requires within { at < length (list_at lists.old app) }
    ensures { let other = set (list_at lists.old app) at choice in
        contents lists.new ≡ set (contents lists.old) app other }
{
    lists[app][at] = choice;
}

// Empties the list of an applicant.
fn clear_at(lists: &mut [Vec<Entry>], app: usize)
    requires known { app < length lists.old }
    ensures { contents lists.new ≡ set (contents lists.old) app [] }
{
    lists[app].clear();
}

// The list of an applicant.
pub fn list_at(lists: &[Vec<Entry>], app: usize) -> &[Entry]
    requires { app < length lists.now }
    ensures { result.now ≡ list_at lists.now app }
{
    lists[app].as_slice()
}

impl Roll {
    /// One more choice of an applicant.
    pub fn add_choice(&mut self, app: usize, choice: Entry) -> Result<(), AllocError>
        requires roll { IsRoll self.old }
        requires known { app < length (lists_of self.old) }
        requires addable { let own = list_at self.old.lists.items app in
            IsAddable (programmes self.old.merits) choice own }
        requires room { self.old.applications < MAX_CHOICES }
        ensures ok { let more = with_choice choice (list_at self.old.lists.items app) in
            OnOk result (lists_of self.new ≡ set (lists_of self.old) app more) }
        ensures err { OnErr result (lists_of self.new ≡ lists_of self.old) }
        ensures present { self.new.present.items ≡ self.old.present.items }
        ensures trees { SameTrees self.old.merits self.new.merits }
        ensures roll { IsRoll self.new }
    {
        self.merits.raise(&choice)?;
        match insert_at(&mut self.lists, app, choice) {
            Ok(()) => {
                self.applications += 1;
                Ok(())
            }
            Err(e) => {
                self.merits.lower(&choice);
                Err(e)
            }
        }
    }

    /// One choice of an applicant less, by its index in their list.
    pub fn drop_choice(&mut self, app: usize, at: usize)
        requires roll { IsRoll self.old }
        requires known { app < length (lists_of self.old) }
        requires within { at < length (list_at self.old.lists.items app) }
        ensures lists { let fewer = remove (list_at self.old.lists.items app) at in
            lists_of self.new ≡ set (lists_of self.old) app fewer }
        ensures present { self.new.present.items ≡ self.old.present.items }
        ensures trees { SameTrees self.old.merits self.new.merits }
        ensures roll { IsRoll self.new }
    {
        let choice = remove_at(&mut self.lists, app, at);
        self.merits.lower(&choice);
        self.applications -= 1;
    }

    /// Another score for a choice of an applicant, by its index in their list.
    pub fn rescore(&mut self, app: usize, at: usize, score: u32) -> Result<(), AllocError>
        requires roll { IsRoll self.old }
        requires known { app < length (lists_of self.old) }
        requires within { at < length (list_at self.old.lists.items app) }
        requires low { score ≤ MAX_SCORE }
        ensures ok { let own = list_at self.old.lists.items app in
            OnOk result (lists_of self.new ≡ set (lists_of self.old) app (scored_at own at score)) }
        ensures err { OnErr result (lists_of self.new ≡ lists_of self.old) }
        ensures present { self.new.present.items ≡ self.old.present.items }
        ensures trees { SameTrees self.old.merits self.new.merits }
        ensures roll { IsRoll self.new }
    {
        let old = list_at(&self.lists, app)[at];
        let new = Entry { score, ..old };
        self.merits.raise(&new)?;
        self.merits.lower(&old);
        write_at(&mut self.lists, app, at, new);
        Ok(())
    }

    /// An applicant who is present is so no longer.
    pub fn withdraw(&mut self, app: usize)
        requires roll { IsRoll self.old }
        requires known { app < length (lists_of self.old) }
        requires here { get_or self.old.present.items app false ≡ true }
        ensures lists { lists_of self.new ≡ set (lists_of self.old) app [] }
        ensures present { self.new.present.items ≡ set self.old.present.items app false }
        ensures trees { SameTrees self.old.merits self.new.merits }
        ensures roll { IsRoll self.new }
    {
        let list = list_at(&self.lists, app);
        self.merits.lower_all(list);
        self.applications -= list.len();
        self.applicants -= 1;
        self.present[app] = false;
        clear_at(&mut self.lists, app);
    }
}
