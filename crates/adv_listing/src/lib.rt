// Whether advertising data lists a service, and the body of the structure that does: Core Supplement Part A 1.1.
#![tactic(auto)]

ghost use Rattle.std.specs.Prelude.{◌≡◌};
ghost use Rattle.uuid_value.specs.Value.{num};
ghost use Rattle.adv_data.specs.Ad.{lists_service};
ghost use Rattle.adv_data.specs.Body.{listed_body, listed_at};

use uuid_value::Uuid;

// Whether some structure lists the service.
pub fn ad_lists_service(data: &[u8], uuid: Uuid) -> bool
    ensures { result ≡ lists_service (num uuid) «data».now }
{
    adv_data::search(data, uuid).is_some()
}

// The body of the structure that lists the service, of the data or else of the response, or an empty part of the data.
pub fn listed_body<'a>(data: &'a [u8], response: &'a [u8], uuid: Uuid) -> &'a [u8]
    ensures result_value { result.now ≡ listed_body (num uuid) «data».now response.now }
    ensures ref_ptr_value { result.ref_ptr ≡ listed_at (num uuid) «data».entry response.entry }
{
    match adv_data::search(data, uuid) {
        Some(body) => &data[body.at..body.at + body.len],
        None => match adv_data::search(response, uuid) {
            Some(body) => &response[body.at..body.at + body.len],
            None => &data[..0],
        },
    }
}
