// Get state with a buffer of one element, for the L1 cache.
ghost use Rattle.std.specs.Prelude.{◌≡◌, true, [], ◌∷◌, ◌+◌, ◌≤◌, ◌<◌, length};
ghost use Rattle.octets.specs.Bytes.{bytes_at};
ghost use Rattle.answer.specs.Answer.{answer_of};
ghost use Rattle.elements.specs.declared.Offer.TheVariants.{Full};
ghost use Rattle.rules.specs.declared.Usage.TheVariants.{ThreadGet};
ghost use Rattle.elements.specs.Table.{kind_of, number_of, thread_element};
ghost use Rattle.rules.specs.Rules.{permits};
ghost use Rattle.gsb.specs.Message.{message};
ghost use Rattle.store.specs.Layout.{layout_of, slot_bytes};
ghost use Rattle.state.specs.State.{got_element};
ghost use Rattle.state.specs.Private.{get_at};

use super::context_of;
use admission::{BIT_1, target_of};
use answer::{Answer, Bad, Fault, Place};
use elements::{is_offered, number_of, thread_element};
use octets::copy;
use rules::{Context, Usage};

// Where an element lies that is alone in its buffer.
const ALONE: Place = Place {
    index: 0,
    offset: 4,
};

// Past the target: 6 where the guest's list lacks the element; else the value comes straight from the slot.
fn get_one(store: &[u8], base: usize, k: Context, id: u16, value: &mut [u8]) -> Result<u64, Fault>
    requires id_value { (permits (record { usage = ThreadGet; capabilities = 0; offer = Full }) id (kind_of id) ≡ true) × (0 < id) × (length value.old ≡ (thread_element (number_of id)).size) }
    requires usage_value { (k.usage ≡ ThreadGet) × (base + slot_bytes ≤ length store.now) }
    ensures value { answer_of result ≡ (get_at store.now base k (message ((id, value.old) ∷ []))).answer }
    ensures value_after { value.new ≡ bytes_at (get_at store.now base k (message ((id, value.old) ∷ []))).buffer 8 (length value.old) }
{
    let offer = k.offer;
    if !is_offered(offer, id) {
        return Err(Fault::Element(Bad::Id, ALONE));
    }
    let x = thread_element(number_of(id));
    copy(store, base + x.position, value, 0, x.size);
    Ok(0)
}

fn try_get(store: &[u8], guest: u64, vcpu: u64, id: u16, value: &mut [u8]) -> Result<u64, Fault>
    requires { (permits (record { usage = ThreadGet; capabilities = 0; offer = Full }) id (kind_of id) ≡ true) × (0 < id) × (length value.old ≡ (thread_element (number_of id)).size) }
    ensures value { answer_of result ≡ (got_element (layout_of store.now) store.now guest vcpu id value.old).answer }
    ensures value_after { value.new ≡ bytes_at (got_element (layout_of store.now) store.now guest vcpu id value.old).buffer 8 (length value.old) }
{
    let base = target_of(store, BIT_1, 0, false, guest as usize, vcpu as usize)?;
    let k = context_of(store, guest as usize, Usage::ThreadGet);
    get_one(store, base, k, id, value)
}

// H_GUEST_GET_STATE with a buffer of one element, for the L1 cache.
pub fn get_element(store: &[u8], guest: u64, vcpu: u64, id: u16, value: &mut [u8]) -> Answer
    requires { (permits (record { usage = ThreadGet; capabilities = 0; offer = Full }) id (kind_of id) ≡ true) × (0 < id) × (length value.old ≡ (thread_element (number_of id)).size) }
    ensures value { result ≡ (got_element (layout_of store.now) store.now guest vcpu id value.old).answer }
    ensures value_after { value.new ≡ bytes_at (got_element (layout_of store.now) store.now guest vcpu id value.old).buffer 8 (length value.old) }
{
    Answer::from(try_get(store, guest, vcpu, id, value))
}
