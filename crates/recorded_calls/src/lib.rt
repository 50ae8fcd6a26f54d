// A call of the recorded file (compare/RECORDED.md) on its buffers, through the functions of `boundary`: what it leaves,
// and its result.
#![tactic(auto)]

pub mod call;

ghost use Rattle.std.specs.Prelude.{◌≡◌, ◌≤◌, ◌↔◌, ◌⊎◌, IfOk, IfErr, IsErrOf};
ghost use Rattle.recorded_calls.specs.Calls.{call_of};

use boundary::{reading, sums, writing};
use call::Call;
use recorded_file::buffers::{ALL, CHANGED, DATA, IMAGE, OUTPUT, RECORD, REQUEST, RESULT, SOURCE};
use recorded_file::error::ReplayError;
use recorded_file::request;
use recorded_file::request::Request;
use sector::ITEMS_OFFSET;

// ---- where the arguments lie in the buffers

// Bytes 10..42 of the record.
const MAP: usize = RECORD + 10;

const MAP_END: usize = RECORD + 42;

// Bytes 40..56 of the request.
const KEY: usize = REQUEST + 40;

// Bytes 56..64 of the request.
const SINGLE: usize = REQUEST + 56;

// No buffer has more bytes.
const MOST: u16 = 4096;

// ---- what a call is given, and what it leaves

// What a call only reads.
#[derive(Clone, Copy)]
struct Given<'a> {
    request: Request,
    image: &'a [u8],
    entries: &'a [u8],
    map: &'a [u8],
    source: &'a [u8],
    data: &'a [u8],
    key: &'a [u8],
    single: &'a [u8],
}

impl<'a> Given<'a> {
    fn of(all: &'a [u8; ALL]) -> Result<Given<'a>, ReplayError>
        ensures fits { IfOk result (λ given. given.request.room ≤ 4096) }
        ensures refused { IfErr result (λ error. error ≡ ReplayError.LongRequest) }
    {
        let request = request::request_of(&all[REQUEST..]);
        if request.payload > MOST || request.room > MOST {
            return Err(ReplayError::LongRequest);
        }
        let data_end = DATA + request.payload as usize;
        Ok(Given {
            request,
            image: &all[IMAGE..RECORD],
            entries: &all[ITEMS_OFFSET..RECORD],
            map: &all[MAP..MAP_END],
            source: &all[SOURCE..DATA],
            data: &all[DATA..data_end],
            key: &all[KEY..SINGLE],
            single: &all[SINGLE..],
        })
    }
}

// The result of a call: its number, and its answer, which is zero where the call has none.
#[derive(Clone, Copy)]
struct Outcome {
    number: u32,
    answer: [u8; 57],
}

impl From<u32> for Outcome {
    fn from(number: u32) -> Outcome {
        Outcome {
            number,
            answer: [0; 57],
        }
    }
}

// The answer's buffer is full of 0xA5, which the call has to write over.
fn reply<F: FnOnce(&mut [u8; 57]) -> u32>(call: F) -> Outcome
    requires { F.IsAlwaysCallable call }
{
    let mut answer = [0xA5; 57];
    let number = call(&mut answer);
    Outcome { number, answer }
}

// ---- the calls

fn append_single(given: Given, image: &mut [u8], record: &mut [u8]) -> u32 {
    let request = given.request;
    writing::nvs_append_single(
        image,
        record,
        request.namespace,
        request.kind,
        request.span,
        request.chunk,
        given.key,
        given.single,
        request.stop,
    )
}

fn append_variable(given: Given, image: &mut [u8], record: &mut [u8]) -> u32 {
    let request = given.request;
    writing::nvs_append_variable(
        image,
        record,
        request.namespace,
        request.kind,
        request.chunk,
        given.key,
        given.data,
        request.stop,
    )
}

// Image, record and output are copies of the reader's own, which the call may change.
fn outcome_of(
    call: Call,
    given: Given,
    image: &mut [u8],
    record: &mut [u8],
    output: &mut [u8],
) -> Outcome {
    let request = given.request;
    let (namespace, index, stop) = (request.namespace, request.index, request.stop);
    match call {
        Call::Crc32 => sums::nvs_crc32(request.start, given.data).into(),
        Call::ItemCrc => reply(|answer| sums::nvs_item_crc(given.data, answer)),
        Call::HeaderCrc => reply(|answer| sums::nvs_header_crc(given.data, answer)),
        Call::Hash => reply(|answer| sums::nvs_hash(namespace, given.key, request.chunk, answer)),
        Call::TypeByte => u32::from(sums::nvs_type_byte(request.kind)).into(),
        Call::Width => reply(|answer| reading::nvs_width(request.kind, answer)),
        Call::Load => reply(|answer| reading::nvs_load(given.image, index, answer)),
        Call::RawRead => reply(|answer| reading::nvs_raw_read(given.image, index, answer)),
        Call::LoadData => reply(|answer| {
            reading::nvs_load_data(given.image, index, output, answer)
        }),
        Call::EntryState => reply(|answer| reading::nvs_entry_state(given.map, index, answer)),
        Call::Statistics => reply(|answer| reading::nvs_statistics(given.map, answer)),
        Call::HashBound => reply(|answer| {
            reading::nvs_hash_bound(given.map, given.entries, answer)
        }),
        Call::Initialise => writing::nvs_initialise(image, record, request.start, stop).into(),
        Call::MarkFull => writing::nvs_mark_full(image, record).into(),
        Call::AppendSingle => append_single(given, image, record).into(),
        Call::AppendNamespace => {
            writing::nvs_append_namespace(image, record, given.key, request.value, stop).into()
        }
        Call::AppendVariable => append_variable(given, image, record).into(),
        Call::CopyIn => writing::nvs_copy_in(image, record, given.source, index, stop).into(),
        Call::Erase => writing::nvs_erase(image, record, index, request.span).into(),
        Call::Purge => writing::nvs_purge(image, index, request.span).into(),
        Call::PurgeNamespace => writing::nvs_purge_namespace(image, record, namespace).into(),
    }
}

// Runs the call of that number on copies of image, record and output, and lays its result beside them: `left` is what has
// to be compared.
pub fn run(number: u8, all: &[u8; ALL], left: &mut [u8; CHANGED]) -> Result<Call, ReplayError>
    ensures ran { IfOk result (λ call. call_of number ≡ Ok call) }
    ensures unknown { IsErrOf result ReplayError.NoCall ↔ (call_of number ≡ Err ReplayError.NoCall) }
    ensures refused { IfErr result (λ error. (call_of number ≡ Err error) ⊎ (error ≡ ReplayError.LongRequest)) }
{
    let call = Call::try_from(number)?;
    let given = Given::of(all)?;
    left.copy_from_slice(&all[..CHANGED]);
    let (image, rest) = left.split_at_mut(RECORD);
    let (record, rest) = rest.split_at_mut(OUTPUT - RECORD);
    let (output, result) = rest.split_at_mut(RESULT - OUTPUT);
    let output = &mut output[..given.request.room as usize];
    let Outcome { number, answer } = outcome_of(call, given, image, record, output);
    result[..4].copy_from_slice(&number.to_le_bytes());
    result[4..].copy_from_slice(&answer);
    Ok(call)
}
