//! Bodies above their limit.
ghost use Rattle.web_request.specs.Pool.{Pool};
ghost use Rattle.web_extract.specs.CappedArguments.{capped_settings};
ghost use Rattle.web_extract.specs.LayerConfigurations.{payload_settings};
ghost use Rattle.web_cutting.specs.OverLimit.{IsFineForBytes, IsFineForText, RefusesOver};

use bytes::Bytes;
use web_extract::{Capped, Configs};
use web_reply::Responder;
use web_request::App;
use web_worker::{Handler, Serves};

/// A handler whose one argument is `Bytes` or `String` gives no reply but 413 to a body above its
/// limit: where the head refuses nothing, each outcome that `serve_all` and `serve_flights` allow
/// is a reply of status 413, or `NoMemory`, or `Unfinished` where the plan polls too seldom. The
/// source has to state its marks.
///
/// The contract is a law, for callers to cite in proofs; a call of it has no effect.
pub fn over_limit_law<P: App, H: Handler<Bytes>, K: Handler<String>>()
where
    P::Layer: Configs,
    H::Output: Responder<P>,
    K::Output: Responder<P>,
    ensures bytes { (pool : Pool P.Layer) (handler : H)
        → RefusesOver (⟦<H as Serves<P, Bytes>>⟧.setting handler pool)
        (λ x. payload_settings P.Layer.Configs.configurations
        ((⟦<H as Serves<P, Bytes>>⟧.setting handler pool).request x).layers)
        (λ settings x. IsFineForBytes settings
        ((⟦<H as Serves<P, Bytes>>⟧.setting handler pool).request x).head.headers) }
    ensures string { (pool : Pool P.Layer) (handler : K)
        → RefusesOver (⟦<K as Serves<P, String>>⟧.setting handler pool)
        (λ x. payload_settings P.Layer.Configs.configurations
        ((⟦<K as Serves<P, String>>⟧.setting handler pool).request x).layers)
        (λ settings x. IsFineForText settings
        ((⟦<K as Serves<P, String>>⟧.setting handler pool).request x).head.headers) }
{}

/// The same of a list of this one argument.
pub fn list_over_limit_law<P: App, H: Handler<(Bytes,)>, K: Handler<(String,)>>()
where
    P::Layer: Configs,
    H::Output: Responder<P>,
    K::Output: Responder<P>,
    ensures bytes { (pool : Pool P.Layer) (handler : H)
        → RefusesOver (⟦<H as Serves<P, (Bytes,)>>⟧.setting handler pool)
        (λ x. payload_settings P.Layer.Configs.configurations
        ((⟦<H as Serves<P, (Bytes,)>>⟧.setting handler pool).request x).layers)
        (λ settings x. IsFineForBytes settings
        ((⟦<H as Serves<P, (Bytes,)>>⟧.setting handler pool).request x).head.headers) }
    ensures string { (pool : Pool P.Layer) (handler : K)
        → RefusesOver (⟦<K as Serves<P, (String,)>>⟧.setting handler pool)
        (λ x. payload_settings P.Layer.Configs.configurations
        ((⟦<K as Serves<P, (String,)>>⟧.setting handler pool).request x).layers)
        (λ settings x. IsFineForText settings
        ((⟦<K as Serves<P, (String,)>>⟧.setting handler pool).request x).head.headers) }
{}

/// The same of `Capped`, where the limit is the lesser of the configured one and `N` bytes.
pub fn capped_over_limit_law<
    P: App,
    H: Handler<Capped<Bytes, N>>,
    K: Handler<Capped<String, N>>,
    const N: usize,
>()
where
    P::Layer: Configs,
    H::Output: Responder<P>,
    K::Output: Responder<P>,
    ensures bytes { (pool : Pool P.Layer) (handler : H)
        → RefusesOver (⟦<H as Serves<P, Capped<Bytes, N>>>⟧.setting handler pool)
        (λ x. capped_settings N (payload_settings P.Layer.Configs.configurations
        ((⟦<H as Serves<P, Capped<Bytes, N>>>⟧.setting handler pool).request x).layers))
        (λ settings x. IsFineForBytes settings
        ((⟦<H as Serves<P, Capped<Bytes, N>>>⟧.setting handler pool).request x).head.headers) }
    ensures string { (pool : Pool P.Layer) (handler : K)
        → RefusesOver (⟦<K as Serves<P, Capped<String, N>>>⟧.setting handler pool)
        (λ x. capped_settings N (payload_settings P.Layer.Configs.configurations
        ((⟦<K as Serves<P, Capped<String, N>>>⟧.setting handler pool).request x).layers))
        (λ settings x. IsFineForText settings
        ((⟦<K as Serves<P, Capped<String, N>>>⟧.setting handler pool).request x).head.headers) }
{}
