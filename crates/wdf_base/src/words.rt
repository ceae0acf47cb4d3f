//! The words by which texts and traces name enums: each table both ways.
ghost use Rattle.std.specs.Prelude.{◌≡◌, Some};
ghost use Rattle.wdf_base.specs.Words as words;

use crate::{Ask, CallKind, Callback, Fault, Stage, Status};

/// Each variant, in order.
pub const STATUSES: [Status; 10] = [
    Status::Success,
    Status::Cancelled,
    Status::Unsuccessful,
    Status::InvalidDeviceRequest,
    Status::InvalidDeviceState,
    Status::NoMoreEntries,
    Status::WdfPaused,
    Status::WdfBusy,
    Status::InsufficientResources,
    Status::DeletePending,
];

/// The word of each variant, in the order of the enum.
const STATUS_WORDS: [&str; 10] = [
    "SUCCESS",
    "CANCELLED",
    "UNSUCCESSFUL",
    "INVALID_DEVICE_REQUEST",
    "INVALID_DEVICE_STATE",
    "NO_MORE_ENTRIES",
    "WDF_PAUSED",
    "WDF_BUSY",
    "INSUFFICIENT_RESOURCES",
    "DELETE_PENDING",
];

impl Status {
    /// The word of a status.
    pub fn word(self) -> &'static str
        ensures { result.now ≡ words.status_word self }
    {
        STATUS_WORDS[self as usize]
    }

    /// The variant with this word, if there is one.
    pub fn from_word(word: &[u8]) -> Option<Status>
        ensures { result ≡ words.status_of word.now }
    {
        STATUSES
            .iter()
            .copied()
            .find(|x| x.word().as_bytes() == word)
    }
}

/// Each variant, in order.
pub const CALLBACKS: [Callback; 33] = [
    Callback::EvtInterruptIsr,
    Callback::EvtDpcFunc,
    Callback::EvtInterruptDpc,
    Callback::EvtTimerFunc,
    Callback::EvtRequestCompletion,
    Callback::EvtRequestCancel,
    Callback::EvtIoCanceledOnQueue,
    Callback::EvtIoStop,
    Callback::EvtIoResume,
    Callback::EvtIoQueueState,
    Callback::EvtIoRead,
    Callback::EvtIoWrite,
    Callback::EvtIoDeviceControl,
    Callback::EvtIoDefault,
    Callback::EvtDevicePrepareHardware,
    Callback::EvtDeviceReleaseHardware,
    Callback::EvtDeviceD0Entry,
    Callback::EvtDeviceD0EntryPostInterruptsEnabled,
    Callback::EvtDeviceD0ExitPreInterruptsDisabled,
    Callback::EvtDeviceD0Exit,
    Callback::EvtDeviceSelfManagedIoInit,
    Callback::EvtDeviceSelfManagedIoRestart,
    Callback::EvtDeviceSelfManagedIoSuspend,
    Callback::EvtDeviceSelfManagedIoFlush,
    Callback::EvtDeviceSelfManagedIoCleanup,
    Callback::EvtDeviceQueryStop,
    Callback::EvtDeviceQueryRemove,
    Callback::EvtDeviceSurpriseRemoval,
    Callback::EvtInterruptEnable,
    Callback::EvtInterruptDisable,
    Callback::EvtWorkItem,
    Callback::EvtCleanupCallback,
    Callback::EvtDestroyCallback,
];

/// The word of each variant, in the order of the enum.
const CALLBACK_WORDS: [&str; 33] = [
    "EvtInterruptIsr",
    "EvtDpcFunc",
    "EvtInterruptDpc",
    "EvtTimerFunc",
    "EvtRequestCompletion",
    "EvtRequestCancel",
    "EvtIoCanceledOnQueue",
    "EvtIoStop",
    "EvtIoResume",
    "EvtIoQueueState",
    "EvtIoRead",
    "EvtIoWrite",
    "EvtIoDeviceControl",
    "EvtIoDefault",
    "EvtDevicePrepareHardware",
    "EvtDeviceReleaseHardware",
    "EvtDeviceD0Entry",
    "EvtDeviceD0EntryPostInterruptsEnabled",
    "EvtDeviceD0ExitPreInterruptsDisabled",
    "EvtDeviceD0Exit",
    "EvtDeviceSelfManagedIoInit",
    "EvtDeviceSelfManagedIoRestart",
    "EvtDeviceSelfManagedIoSuspend",
    "EvtDeviceSelfManagedIoFlush",
    "EvtDeviceSelfManagedIoCleanup",
    "EvtDeviceQueryStop",
    "EvtDeviceQueryRemove",
    "EvtDeviceSurpriseRemoval",
    "EvtInterruptEnable",
    "EvtInterruptDisable",
    "EvtWorkItem",
    "EvtCleanupCallback",
    "EvtDestroyCallback",
];

impl Callback {
    /// The word of a callback.
    pub fn word(self) -> &'static str
        ensures { result.now ≡ words.callback_word self }
    {
        CALLBACK_WORDS[self as usize]
    }

    /// The variant with this word, if there is one. Most have another length, and are told apart by it.
    pub fn from_word(word: &[u8]) -> Option<Callback>
        ensures { result ≡ words.callback_of word.now }
    {
        CALLBACKS.iter().copied().find(|x| x.word().len() == word.len()
            && x.word().as_bytes() == word)
    }
}

/// Each variant, in order.
pub const CALL_KINDS: [CallKind; 45] = [
    CallKind::WdfObjectCreate,
    CallKind::WdfSpinLockCreate,
    CallKind::WdfWaitLockCreate,
    CallKind::WdfRequestCreate,
    CallKind::WdfDpcCreate,
    CallKind::WdfTimerCreate,
    CallKind::WdfWorkItemCreate,
    CallKind::WdfObjectDelete,
    CallKind::WdfObjectReference,
    CallKind::WdfObjectDereference,
    CallKind::GetContext,
    CallKind::SetContext,
    CallKind::WdfSpinLockAcquire,
    CallKind::WdfSpinLockRelease,
    CallKind::WdfWaitLockAcquire,
    CallKind::WdfWaitLockRelease,
    CallKind::WdfInterruptAcquireLock,
    CallKind::WdfInterruptReleaseLock,
    CallKind::WdfRequestComplete,
    CallKind::WdfRequestMarkCancelableEx,
    CallKind::WdfRequestUnmarkCancelable,
    CallKind::WdfRequestIsCanceled,
    CallKind::WdfRequestRequeue,
    CallKind::WdfRequestForwardToIoQueue,
    CallKind::WdfRequestStopAcknowledge,
    CallKind::WdfRequestSend,
    CallKind::WdfRequestCancelSentRequest,
    CallKind::WdfIoQueueStart,
    CallKind::WdfIoQueueStop,
    CallKind::WdfIoQueueDrain,
    CallKind::WdfIoQueuePurge,
    CallKind::WdfIoQueueStopSynchronously,
    CallKind::WdfIoQueueDrainSynchronously,
    CallKind::WdfIoQueuePurgeSynchronously,
    CallKind::WdfIoQueueRetrieveNextRequest,
    CallKind::WdfIoQueueReadyNotify,
    CallKind::WdfInterruptQueueDpcForIsr,
    CallKind::WdfDpcEnqueue,
    CallKind::WdfDpcCancel,
    CallKind::WdfTimerStart,
    CallKind::WdfTimerStop,
    CallKind::WdfWorkItemEnqueue,
    CallKind::WdfWorkItemFlush,
    CallKind::WdfIoTargetStop,
    CallKind::WdfIoTargetStart,
];

/// The word of each variant, in the order of the enum.
const CALL_WORDS: [&str; 45] = [
    "WdfObjectCreate",
    "WdfSpinLockCreate",
    "WdfWaitLockCreate",
    "WdfRequestCreate",
    "WdfDpcCreate",
    "WdfTimerCreate",
    "WdfWorkItemCreate",
    "WdfObjectDelete",
    "WdfObjectReference",
    "WdfObjectDereference",
    "GetContext",
    "SetContext",
    "WdfSpinLockAcquire",
    "WdfSpinLockRelease",
    "WdfWaitLockAcquire",
    "WdfWaitLockRelease",
    "WdfInterruptAcquireLock",
    "WdfInterruptReleaseLock",
    "WdfRequestComplete",
    "WdfRequestMarkCancelableEx",
    "WdfRequestUnmarkCancelable",
    "WdfRequestIsCanceled",
    "WdfRequestRequeue",
    "WdfRequestForwardToIoQueue",
    "WdfRequestStopAcknowledge",
    "WdfRequestSend",
    "WdfRequestCancelSentRequest",
    "WdfIoQueueStart",
    "WdfIoQueueStop",
    "WdfIoQueueDrain",
    "WdfIoQueuePurge",
    "WdfIoQueueStopSynchronously",
    "WdfIoQueueDrainSynchronously",
    "WdfIoQueuePurgeSynchronously",
    "WdfIoQueueRetrieveNextRequest",
    "WdfIoQueueReadyNotify",
    "WdfInterruptQueueDpcForIsr",
    "WdfDpcEnqueue",
    "WdfDpcCancel",
    "WdfTimerStart",
    "WdfTimerStop",
    "WdfWorkItemEnqueue",
    "WdfWorkItemFlush",
    "WdfIoTargetStop",
    "WdfIoTargetStart",
];

impl CallKind {
    /// The word of a framework call.
    pub fn word(self) -> &'static str
        ensures { result.now ≡ words.call_word self }
    {
        CALL_WORDS[self as usize]
    }

    /// The variant with this word, if there is one. Most have another length, and are told apart by it.
    pub fn from_word(word: &[u8]) -> Option<CallKind>
        ensures { result ≡ words.call_of word.now }
    {
        CALL_KINDS.iter().copied().find(|x| x.word().len() == word.len()
            && x.word().as_bytes() == word)
    }
}

/// Each variant, in order.
pub const FAULTS: [Fault; 16] = [
    Fault::StaleHandle,
    Fault::WrongKind,
    Fault::IrqlTooHigh,
    Fault::NotOwned,
    Fault::CompleteWhileMarked,
    Fault::CompleteBeforeCancelCallback,
    Fault::MarkedTwice,
    Fault::AckOutsideStop,
    Fault::NoReferenceHeld,
    Fault::DeleteNotAllowed,
    Fault::LockHeldAlready,
    Fault::LockNotHeld,
    Fault::ReturnHoldingLock,
    Fault::HardwareReleased,
    Fault::SyncInOwnScope,
    Fault::ScriptError,
];

/// The word of each variant, in the order of the enum.
const FAULT_WORDS: [&str; 16] = [
    "StaleHandle",
    "WrongKind",
    "IrqlTooHigh",
    "NotOwned",
    "CompleteWhileMarked",
    "CompleteBeforeCancelCallback",
    "MarkedTwice",
    "AckOutsideStop",
    "NoReferenceHeld",
    "DeleteNotAllowed",
    "LockHeldAlready",
    "LockNotHeld",
    "ReturnHoldingLock",
    "HardwareReleased",
    "SyncInOwnScope",
    "ScriptError",
];

impl Fault {
    /// The word of a fault.
    pub fn word(self) -> &'static str
        ensures { result.now ≡ words.fault_word self }
    {
        FAULT_WORDS[self as usize]
    }

    /// The variant with this word, if there is one.
    pub fn from_word(word: &[u8]) -> Option<Fault>
        ensures { result ≡ words.fault_of word.now }
    {
        FAULTS.iter().copied().find(|x| x.word().as_bytes() == word)
    }
}

/// Each variant, in order.
pub const STAGES: [Stage; 12] = [
    Stage::Hardware,
    Stage::NoHardware,
    Stage::Enabled,
    Stage::Disabled,
    Stage::QueuesUp,
    Stage::QueuesDown,
    Stage::Settled,
    Stage::Quiet,
    Stage::Closed,
    Stage::Working,
    Stage::Sleeping,
    Stage::Removed,
];

/// The word of each variant, in the order of the enum.
const STAGE_WORDS: [&str; 12] = [
    "hardware",
    "no_hardware",
    "enabled",
    "disabled",
    "queues_up",
    "queues_down",
    "settled",
    "quiet",
    "closed",
    "working",
    "sleeping",
    "removed",
];

impl Stage {
    /// The word of a stage.
    pub fn word(self) -> &'static str
        ensures { result.now ≡ words.stage_word self }
    {
        STAGE_WORDS[self as usize]
    }

    /// The variant with this word, if there is one.
    pub fn from_word(word: &[u8]) -> Option<Stage>
        ensures { result ≡ words.stage_of word.now }
    {
        STAGES.iter().copied().find(|x| x.word().as_bytes() == word)
    }
}

/// Each variant, in order.
pub const ASKS: [Ask; 6] = [
    Ask::Start,
    Ask::Sleep,
    Ask::Wake,
    Ask::Rebalance,
    Ask::Remove,
    Ask::Surprise,
];

/// The word of each variant, in the order of the enum.
const ASK_WORDS: [&str; 6] = ["start", "sleep", "wake", "rebalance", "remove", "surprise"];

impl Ask {
    /// The word of what the Plug and Play manager asks.
    pub fn word(self) -> &'static str
        ensures { result.now ≡ words.ask_word self }
    {
        ASK_WORDS[self as usize]
    }

    /// The variant with this word, if there is one.
    pub fn from_word(word: &[u8]) -> Option<Ask>
        ensures { result ≡ words.ask_of word.now }
    {
        ASKS.iter().copied().find(|x| x.word().as_bytes() == word)
    }
}

// Laws of the tables: each word is read back, and nothing else is read so.

/// The table of words of `Status`: `x` is read back from its word, and no other word gives it.
pub fn status_words(x: Status, word: &[u8])
    ensures back { words.status_of (words.status_word x) ≡ Some x }
    ensures only { words.status_of word.now ≡ Some x → words.status_word x ≡ word.now }
{}

/// The table of words of `Callback`: `x` is read back from its word, and no other word gives it.
pub fn callback_words(x: Callback, word: &[u8])
    ensures back { words.callback_of (words.callback_word x) ≡ Some x }
    ensures only { words.callback_of word.now ≡ Some x → words.callback_word x ≡ word.now }
{}

/// The table of words of `CallKind`: `x` is read back from its word, and no other word gives it.
pub fn call_words(x: CallKind, word: &[u8])
    ensures back { words.call_of (words.call_word x) ≡ Some x }
    ensures only { words.call_of word.now ≡ Some x → words.call_word x ≡ word.now }
{}

/// The table of words of `Fault`: `x` is read back from its word, and no other word gives it.
pub fn fault_words(x: Fault, word: &[u8])
    ensures back { words.fault_of (words.fault_word x) ≡ Some x }
    ensures only { words.fault_of word.now ≡ Some x → words.fault_word x ≡ word.now }
{}

/// The table of words of `Stage`: `x` is read back from its word, and no other word gives it.
pub fn stage_words(x: Stage, word: &[u8])
    ensures back { words.stage_of (words.stage_word x) ≡ Some x }
    ensures only { words.stage_of word.now ≡ Some x → words.stage_word x ≡ word.now }
{}

/// The table of words of `Ask`: `x` is read back from its word, and no other word gives it.
pub fn ask_words(x: Ask, word: &[u8])
    ensures back { words.ask_of (words.ask_word x) ≡ Some x }
    ensures only { words.ask_of word.now ≡ Some x → words.ask_word x ≡ word.now }
{}
