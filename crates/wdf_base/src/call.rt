ghost use Rattle.std.specs.Prelude.{◌≡◌};
ghost use Rattle.wdf_base.specs.Values as values;

use crate::value::Value;

/// An event callback of the driver.
#[derive(Clone, Copy, Debug, PartialEq, Eq)]
pub enum Callback {
    EvtInterruptIsr,
    EvtDpcFunc,
    EvtInterruptDpc,
    EvtTimerFunc,
    EvtRequestCompletion,
    EvtRequestCancel,
    EvtIoCanceledOnQueue,
    EvtIoStop,
    EvtIoResume,
    EvtIoQueueState,
    EvtIoRead,
    EvtIoWrite,
    EvtIoDeviceControl,
    EvtIoDefault,
    EvtDevicePrepareHardware,
    EvtDeviceReleaseHardware,
    EvtDeviceD0Entry,
    EvtDeviceD0EntryPostInterruptsEnabled,
    EvtDeviceD0ExitPreInterruptsDisabled,
    EvtDeviceD0Exit,
    EvtDeviceSelfManagedIoInit,
    EvtDeviceSelfManagedIoRestart,
    EvtDeviceSelfManagedIoSuspend,
    EvtDeviceSelfManagedIoFlush,
    EvtDeviceSelfManagedIoCleanup,
    EvtDeviceQueryStop,
    EvtDeviceQueryRemove,
    EvtDeviceSurpriseRemoval,
    EvtInterruptEnable,
    EvtInterruptDisable,
    EvtWorkItem,
    EvtCleanupCallback,
    EvtDestroyCallback,
}

/// A framework call.
#[derive(Clone, Copy, Debug, PartialEq, Eq)]
pub enum CallKind {
    WdfObjectCreate,
    WdfSpinLockCreate,
    WdfWaitLockCreate,
    WdfRequestCreate,
    WdfDpcCreate,
    WdfTimerCreate,
    WdfWorkItemCreate,
    WdfObjectDelete,
    WdfObjectReference,
    WdfObjectDereference,
    GetContext,
    SetContext,
    WdfSpinLockAcquire,
    WdfSpinLockRelease,
    WdfWaitLockAcquire,
    WdfWaitLockRelease,
    WdfInterruptAcquireLock,
    WdfInterruptReleaseLock,
    WdfRequestComplete,
    WdfRequestMarkCancelableEx,
    WdfRequestUnmarkCancelable,
    WdfRequestIsCanceled,
    WdfRequestRequeue,
    WdfRequestForwardToIoQueue,
    WdfRequestStopAcknowledge,
    WdfRequestSend,
    WdfRequestCancelSentRequest,
    WdfIoQueueStart,
    WdfIoQueueStop,
    WdfIoQueueDrain,
    WdfIoQueuePurge,
    WdfIoQueueStopSynchronously,
    WdfIoQueueDrainSynchronously,
    WdfIoQueuePurgeSynchronously,
    WdfIoQueueRetrieveNextRequest,
    WdfIoQueueReadyNotify,
    WdfInterruptQueueDpcForIsr,
    WdfDpcEnqueue,
    WdfDpcCancel,
    WdfTimerStart,
    WdfTimerStop,
    WdfWorkItemEnqueue,
    WdfWorkItemFlush,
    WdfIoTargetStop,
    WdfIoTargetStart,
}

/// An argument of a framework call: a value, or the number of a class of the plan.
#[derive(Clone, Copy, Debug, PartialEq, Eq)]
pub enum Arg {
    Val(Value),
    Class(u16),
}

impl Arg {
    /// Whether an argument is this number; a class never is.
    pub fn is_number(self, number: u64) -> bool
        ensures { result ≡ values.arg_is self number }
    {
        match self {
            Arg::Val(Value::Num(n)) => n == number,
            _ => false,
        }
    }
}

/// A framework call with its first `count` arguments. Each argument beyond `count` is the number 0.
#[derive(Clone, Copy, Debug, PartialEq, Eq)]
pub struct Call {
    pub kind: CallKind,
    pub count: u8,
    pub a: Arg,
    pub b: Arg,
    pub c: Arg,
}
