// Faults and bytes as rows tell them.
use http_message::ExchangeFault;
use registry_http::RegistryFault;
use skopeo_outside::Memory;
use std::alloc::Global;

/// Bytes as a text.
pub fn text_of(bytes: &[u8]) -> &str {
    std::str::from_utf8(bytes).unwrap_or("?")
}

/// A fault of an exchange, the first bytes of a bad answer as a text.
pub fn exchange_text(alloc: Global, fault: &ExchangeFault) -> Result<String, Memory> {
    match fault {
        ExchangeFault::BadAnswer(step, bytes) => {
            let text = text_of(bytes.as_slice());
            Ok(format!(in alloc; "BadAnswer({step:?}, {text:?})")?)
        }
        other => Ok(format!(in alloc; "{other:?}")?),
    }
}

/// A fault of a step.
pub fn fault_text(alloc: Global, fault: &RegistryFault) -> Result<String, Memory> {
    match fault {
        RegistryFault::Exchange(fault) => exchange_text(alloc, fault),
        other => Ok(format!(in alloc; "{other:?}")?),
    }
}
