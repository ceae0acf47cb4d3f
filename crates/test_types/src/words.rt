//! Words of the text, what goes with them, and the plain types that plans are made of.
use std::alloc::Global;
use std::collections::HashMap;
use std::mem::size_of;
use wdf_base::*;

/// What has a word alone.
#[derive(Clone, Copy)]
enum Worded {
    Status(Status),
    Fault(Fault),
    Stage(Stage),
    Ask(Ask),
}

static WORDS: [(Worded, &str); 44] = [
    (Worded::Status(Status::Success), "SUCCESS"),
    (Worded::Status(Status::Cancelled), "CANCELLED"),
    (Worded::Status(Status::Unsuccessful), "UNSUCCESSFUL"),
    (
        Worded::Status(Status::InvalidDeviceRequest),
        "INVALID_DEVICE_REQUEST",
    ),
    (
        Worded::Status(Status::InvalidDeviceState),
        "INVALID_DEVICE_STATE",
    ),
    (Worded::Status(Status::NoMoreEntries), "NO_MORE_ENTRIES"),
    (Worded::Status(Status::WdfPaused), "WDF_PAUSED"),
    (Worded::Status(Status::WdfBusy), "WDF_BUSY"),
    (
        Worded::Status(Status::InsufficientResources),
        "INSUFFICIENT_RESOURCES",
    ),
    (Worded::Status(Status::DeletePending), "DELETE_PENDING"),
    (Worded::Fault(Fault::StaleHandle), "StaleHandle"),
    (Worded::Fault(Fault::WrongKind), "WrongKind"),
    (Worded::Fault(Fault::IrqlTooHigh), "IrqlTooHigh"),
    (Worded::Fault(Fault::NotOwned), "NotOwned"),
    (
        Worded::Fault(Fault::CompleteWhileMarked),
        "CompleteWhileMarked",
    ),
    (
        Worded::Fault(Fault::CompleteBeforeCancelCallback),
        "CompleteBeforeCancelCallback",
    ),
    (Worded::Fault(Fault::MarkedTwice), "MarkedTwice"),
    (Worded::Fault(Fault::AckOutsideStop), "AckOutsideStop"),
    (Worded::Fault(Fault::NoReferenceHeld), "NoReferenceHeld"),
    (Worded::Fault(Fault::DeleteNotAllowed), "DeleteNotAllowed"),
    (Worded::Fault(Fault::LockHeldAlready), "LockHeldAlready"),
    (Worded::Fault(Fault::LockNotHeld), "LockNotHeld"),
    (Worded::Fault(Fault::ReturnHoldingLock), "ReturnHoldingLock"),
    (Worded::Fault(Fault::HardwareReleased), "HardwareReleased"),
    (Worded::Fault(Fault::SyncInOwnScope), "SyncInOwnScope"),
    (Worded::Fault(Fault::ScriptError), "ScriptError"),
    (Worded::Stage(Stage::Hardware), "hardware"),
    (Worded::Stage(Stage::NoHardware), "no_hardware"),
    (Worded::Stage(Stage::Enabled), "enabled"),
    (Worded::Stage(Stage::Disabled), "disabled"),
    (Worded::Stage(Stage::QueuesUp), "queues_up"),
    (Worded::Stage(Stage::QueuesDown), "queues_down"),
    (Worded::Stage(Stage::Settled), "settled"),
    (Worded::Stage(Stage::Quiet), "quiet"),
    (Worded::Stage(Stage::Closed), "closed"),
    (Worded::Stage(Stage::Working), "working"),
    (Worded::Stage(Stage::Sleeping), "sleeping"),
    (Worded::Stage(Stage::Removed), "removed"),
    (Worded::Ask(Ask::Start), "start"),
    (Worded::Ask(Ask::Sleep), "sleep"),
    (Worded::Ask(Ask::Wake), "wake"),
    (Worded::Ask(Ask::Rebalance), "rebalance"),
    (Worded::Ask(Ask::Remove), "remove"),
    (Worded::Ask(Ask::Surprise), "surprise"),
];

/// Callbacks with their words and the numbers of their ranks.
static CALLBACKS: [(Callback, &str, u8); 14] = [
    (Callback::EvtInterruptIsr, "EvtInterruptIsr", 1),
    (Callback::EvtInterruptDpc, "EvtInterruptDpc", 2),
    (Callback::EvtTimerFunc, "EvtTimerFunc", 3),
    (Callback::EvtRequestCompletion, "EvtRequestCompletion", 4),
    (Callback::EvtRequestCancel, "EvtRequestCancel", 5),
    (Callback::EvtIoCanceledOnQueue, "EvtIoCanceledOnQueue", 6),
    (Callback::EvtIoStop, "EvtIoStop", 7),
    (Callback::EvtIoResume, "EvtIoResume", 8),
    (Callback::EvtIoQueueState, "EvtIoQueueState", 9),
    (Callback::EvtIoDeviceControl, "EvtIoDeviceControl", 10),
    (
        Callback::EvtDeviceD0EntryPostInterruptsEnabled,
        "EvtDeviceD0EntryPostInterruptsEnabled",
        11,
    ),
    (Callback::EvtWorkItem, "EvtWorkItem", 12),
    (Callback::EvtCleanupCallback, "EvtCleanupCallback", 13),
    (Callback::EvtDestroyCallback, "EvtDestroyCallback", 14),
];

const DISPATCH: CallLevel = CallLevel::AtMost(Irql(2));

/// Calls with their words, how many arguments they have, and their levels.
static CALLS: [(CallKind, &str, u8, CallLevel); 12] = [
    (CallKind::WdfObjectCreate, "WdfObjectCreate", 2, DISPATCH),
    (CallKind::WdfDpcCreate, "WdfDpcCreate", 1, DISPATCH),
    (
        CallKind::GetContext,
        "GetContext",
        2,
        CallLevel::AtMost(Irql(12)),
    ),
    (
        CallKind::SetContext,
        "SetContext",
        3,
        CallLevel::AtMost(Irql(12)),
    ),
    (
        CallKind::WdfWaitLockAcquire,
        "WdfWaitLockAcquire",
        1,
        CallLevel::AtMost(Irql(0)),
    ),
    (
        CallKind::WdfInterruptAcquireLock,
        "WdfInterruptAcquireLock",
        1,
        CallLevel::OfInterrupt,
    ),
    (
        CallKind::WdfRequestComplete,
        "WdfRequestComplete",
        2,
        DISPATCH,
    ),
    (CallKind::WdfRequestSend, "WdfRequestSend", 3, DISPATCH),
    (
        CallKind::WdfIoQueuePurgeSynchronously,
        "WdfIoQueuePurgeSynchronously",
        1,
        CallLevel::AtMost(Irql(0)),
    ),
    (
        CallKind::WdfDpcEnqueue,
        "WdfDpcEnqueue",
        1,
        CallLevel::AtMost(Irql(12)),
    ),
    (
        CallKind::WdfTimerStop,
        "WdfTimerStop",
        2,
        CallLevel::DispatchIf(0),
    ),
    (
        CallKind::WdfIoTargetStop,
        "WdfIoTargetStop",
        2,
        CallLevel::DispatchIf(2),
    ),
];

/// Whether this is the word of the text, and is read as this.
fn has_word(worded: Worded, word: &str) -> bool {
    let bytes = word.as_bytes();
    match worded {
        Worded::Status(status) => {
            status.word() == word && Status::from_word(bytes) == Some(status)
        }
        Worded::Fault(fault) => fault.word() == word && Fault::from_word(bytes) == Some(fault),
        Worded::Stage(stage) => stage.word() == word && Stage::from_word(bytes) == Some(stage),
        Worded::Ask(ask) => ask.word() == word && Ask::from_word(bytes) == Some(ask),
    }
}

/// Whether a callback has this word and this rank. The ranks 4 to 8 and 10 carry a request.
fn is_callback(callback: Callback, word: &str, rank: u8) -> bool {
    let found = callback.row().rank;
    let carries = (rank >= 4 && rank <= 8) || rank == 10;
    callback.word() == word
        && Callback::from_word(word.as_bytes()) == Some(callback)
        && found.number() == rank
        && found.carries_request() == carries
}

/// Whether a call has this word, so many arguments, and this level.
fn is_call(call: CallKind, word: &str, count: u8, level: CallLevel) -> bool {
    let row = call.signature();
    call.word() == word
        && CallKind::from_word(word.as_bytes()) == Some(call)
        && row.count() == count
        && row.level == level
}

/// Whether words that stand for nothing are read as nothing.
fn others_are_none() -> bool {
    Status::from_word(b"WDF_PAUSE").is_none()
        && Callback::from_word(b"").is_none()
        && CallKind::from_word(b"WdfRequestSen").is_none()
        && Fault::from_word(b"staleHandle").is_none()
}

/// Whether the arguments of calls are of their sorts, and of a cleaned object where they may be.
fn have_sorts() -> bool {
    let create = CallKind::WdfSpinLockCreate.signature();
    create.a == Sort::Class(Kind::SpinLock)
        && !create.cleaned
        && CallKind::WdfRequestUnmarkCancelable.signature().cleaned
}

#[test]
fn words_are_those_of_the_text(rt: HostRuntime) {
    for (worded, word) in &WORDS {
        assert!(rt; has_word(*worded, word), "{word}");
    }
    for (callback, word, rank) in &CALLBACKS {
        assert!(rt; is_callback(*callback, word, *rank), "{word}");
    }
    for (call, word, count, level) in &CALLS {
        assert!(rt; is_call(*call, word, *count, *level), "{word}");
    }
    assert!(rt; others_are_none() && have_sorts());
}

/// The laws are functions without a body: a caller gets their clauses.
#[test]
fn laws_of_words_may_be_used(_rt: HostRuntime) {
    let word = b"closed";
    status_words(Status::Success, word);
    callback_words(Callback::EvtIoRead, word);
    call_words(CallKind::GetContext, word);
    fault_words(Fault::NotOwned, word);
    stage_words(Stage::Closed, word);
    ask_words(Ask::Wake, word);
}

/// Whether names are told apart as keys of a map, and the last number of a name counts.
fn are_keys(alloc: Global) -> bool {
    let longest = Name::new(b"abcdefghijklmnopqrstuvwxyz_12345");
    let mut numbers = HashMap::new(alloc);
    let stored = numbers.insert(longest, 1u32).is_ok()
        && numbers.insert(Name::new(b"abc"), 2).is_ok()
        && numbers.insert(Name::new(b"abc"), 3).is_ok();
    stored
        && numbers.len() == 2
        && numbers.get(&Name::new(b"abc")).copied() == Some(3)
        && numbers.get(&Name::new(b"ab")).is_none()
}

/// Whether names have their bytes.
fn have_bytes() -> bool {
    let longest = Name::new(b"abcdefghijklmnopqrstuvwxyz_12345");
    longest.bytes() == b"abcdefghijklmnopqrstuvwxyz_12345".as_slice()
        && Name::new(b"").bytes().is_empty()
        && longest == longest
        && longest != Name::new(b"abc")
}

/// Whether a list is read by number.
fn is_read_by_number(alloc: Global) -> bool {
    let mut items: Items<u64, FEW> = Items::new(alloc);
    let was_empty = items.is_empty();
    if items.push(7).is_err() || items.push(9).is_err() {
        return false;
    }
    *items.item_mut(0) += 1;
    was_empty
        && items.len() == 2
        && items.get(0) == 8
        && *items.item(1) == 9
        && items.as_slice() == [8, 9].as_slice()
}

/// Whether a class of timers and one of requests have their kinds and names.
fn classes_have_kinds() -> bool {
    let timer = ClassInfo::Deferred {
        name: 5,
        kind: DeferredKind::Timer,
        parent: ObjectId(2),
        serialize: false,
        period: 10,
    };
    let request = ClassInfo::Plain {
        name: 6,
        kind: PlainKind::Request,
    };
    timer.kind() == Kind::Timer
        && timer.name() == 5
        && request.kind() == Kind::Made
        && request.name() == 6
}

/// Whether the driver object and a class have their kinds and names.
fn declared_have_kinds() -> bool {
    let of_class = Declared::OfClass(0);
    Declared::Driver.kind() == Some(Kind::Driver)
        && Declared::Driver.name() == Some(0)
        && of_class.kind().is_none()
        && !of_class.has_name(0)
        && same_declared(&Declared::OfClass(3), &Declared::OfClass(3))
        && !same_declared(&Declared::OfClass(3), &Declared::Driver)
}

#[test]
fn plain_types_are_what_they_say(rt: HostRuntime) {
    assert!(rt; size_of::<Frame>() <= 640);
    assert!(rt; size_of::<Event>() <= 160);
    assert!(rt; size_of::<Name>() == 33);
    assert!(rt; have_bytes() && are_keys(rt.alloc()));
    assert!(rt; is_read_by_number(rt.alloc()));
    assert!(rt; classes_have_kinds() && declared_have_kinds());
}
