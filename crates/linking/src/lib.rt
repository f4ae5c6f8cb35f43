// CREATE and DELETE: the calls that point to a block and that take a pointer away.
#![tactic(auto)]

ghost use Rattle.std.specs.Prelude.{◌≡◌, []};
ghost use Rattle.card.specs.Lent.{Performs, SameTables, lent_card, shared_card};
ghost use Rattle.card.specs.Card.{multiplicity};
ghost use Rattle.card.specs.SoundCard.{SoundCard};
ghost use Rattle.card.specs.Plan.{first};
ghost use Rattle.card.specs.Session.{request, perform_sound};
ghost use Rattle.card.specs.declared.Call.TheVariants.{Create, Delete};
ghost use Rattle.checks.specs.Checked.{by_refusal, checked};
ghost use Rattle.tables.specs.InUse.{Sorted, Paired};
ghost use Rattle.linking.specs.Removal.{removal};

use card::{
    Answer, CreateOperands, DeleteOperands, HIGHEST_MULTIPLICITY, LentCard, Mode, Port, Refusal,
    SharedCard,
};

// How often the source points to the destination.
fn multiplicity(card: SharedCard, source: u16, destination: u16) -> u16
    requires sorted { Sorted card.pointers.now card.info.used }
    requires paired { Paired card.pointers.now card.multiplicities.now }
    ensures { result ≡ multiplicity (shared_card card.entry).public source destination }
{
    let pointer = (source as u32) * 65536 + (destination as u32);
    tables::times(card.pointers, card.multiplicities, card.info.used, pointer)
}

// ---- CREATE

// The checks of CREATE.
fn create_check(card: SharedCard, port: Port, o: CreateOperands) -> Result<(), Refusal>
    requires { SoundCard (shared_card card) }
    ensures { result ≡ checked port (shared_card card.entry) (request (Create o) [] [] []) }
{
    let first = o.credential;
    let second = o.second;
    let from = o.source as usize;
    let to = o.destination as usize;
    let source_mode = Mode::Writing;
    let destination_mode = Mode::Writing;
    if access::missing(card.info, card.flags, from) {
        return Err(Refusal::NotAllocated);
    }
    if access::missing(card.info, card.flags, to) {
        return Err(Refusal::NotAllocated);
    }
    if (to < card.info.roots) | access::root_at_host(port, card.info, from) {
        return Err(Refusal::IsRoot);
    }
    if !access::admits(port, card, source_mode, from, first) {
        return Err(Refusal::NotOpened);
    }
    if !access::admits(port, card, destination_mode, to, second) {
        return Err(Refusal::NotOpened);
    }
    let times = multiplicity(card, o.source, o.destination);
    if (o.source == o.destination) | (times == HIGHEST_MULTIPLICITY) {
        return Err(Refusal::CannotPoint);
    }
    if (times == 0) & (card.info.used == card.pointers.len()) {
        return Err(Refusal::TooFewPlaces);
    }
    Ok(())
}

// CREATE on a card that has been audited.
pub fn create_sound(card: &mut LentCard, port: Port, o: CreateOperands) -> Answer
    requires { SoundCard (lent_card card.old) }
    ensures same { SameTables card.old card.new }
    ensures performs { Performs (λ c. perform_sound port c (request (Create o) [] [] [])) card.old card.new result [] [] }
{
    create_check(card.shared(), port, o)?;
    card.info = changes::make_pointer(
        card.info,
        card.counts,
        card.pointers,
        card.multiplicities,
        o.source,
        o.destination,
    );
    Ok(None)
}

// ---- DELETE

// The checks that DELETE and DELETE_TREE have in common. Those of other calls begin alike: each call has an order of refusals of its own.
pub fn removal_check(card: SharedCard, port: Port, o: DeleteOperands) -> Result<(), Refusal>
    requires { SoundCard (shared_card card) }
    ensures { result ≡ by_refusal (first (removal port (shared_card card.entry) o)) }
{
    let credential = o.credential;
    let from = o.source as usize;
    let to = o.destination as usize;
    if access::missing(card.info, card.flags, from) {
        return Err(Refusal::NotAllocated);
    }
    if access::missing(card.info, card.flags, to) {
        return Err(Refusal::NotAllocated);
    }
    if access::root_at_host(port, card.info, from) {
        return Err(Refusal::IsRoot);
    }
    if !access::admits(port, card, Mode::Writing, from, credential) {
        return Err(Refusal::NotOpened);
    }
    if multiplicity(card, o.source, o.destination) == 0 {
        return Err(Refusal::NoPointer);
    }
    Ok(())
}

// The checks of DELETE.
fn delete_check(card: SharedCard, port: Port, o: DeleteOperands) -> Result<(), Refusal>
    requires { SoundCard (shared_card card) }
    ensures { result ≡ checked port (shared_card card.entry) (request (Delete o) [] [] []) }
{
    removal_check(card, port, o)?;
    if card.counts[o.destination as usize] != 1 {
        return Ok(());
    }
    if tables::points_from(card.pointers, card.info.used, o.destination) {
        return Err(Refusal::HasPointers);
    }
    Ok(())
}

// DELETE on a card that has been audited.
pub fn delete_sound(card: &mut LentCard, port: Port, o: DeleteOperands) -> Answer
    requires { SoundCard (lent_card card.old) }
    ensures same { SameTables card.old card.new }
    ensures performs { Performs (λ c. perform_sound port c (request (Delete o) [] [] [])) card.old card.new result [] [] }
{
    delete_check(card.shared(), port, o)?;
    let last = card.counts[o.destination as usize] == 1;
    card.info = changes::take_pointer(
        card.info,
        card.counts,
        card.pointers,
        card.multiplicities,
        o.source,
        o.destination,
    );
    if last {
        changes::free_block(card.flags, card.keys, card.windows, o.destination);
        return Ok(Some(1));
    }
    Ok(Some(0))
}
