//! Laws of the definitions that contracts cite, each the contract of an empty function.
ghost use Rattle.raft_log_record_base.specs.Grammar.{IsPrefixFree};
ghost use Rattle.raft_log_record_base.specs.Number.{IsByte, IsU16, IsU32, IsU64, IsU16Le, IsU32Le, IsU64Le, IsU64Desc, IsI64, IsI64Desc, IsI32Le, IsI64Le, IsVarU64, IsVarI64};
ghost use Rattle.raft_log_record_base.specs.Files.{AppendAboveRewrite, NumberedInQueue, OrderAgreesWithEquality};

/// The order of files. Each file of the append queue is above each of the rewrite queue, and files of one queue are
/// ordered by their numbers. Two files compare as equal if and only if they are the same file.
pub fn file_order()
    ensures queues { AppendAboveRewrite }
    ensures numbers { NumberedInQueue }
    ensures equality { OrderAgreesWithEquality }
{}

/// No spelling of a number begins another one of its kind, and none spells two numbers. Numbers written one after
/// another can therefore be read back, whatever follows.
pub fn no_number_begins_another()
    ensures byte { IsPrefixFree IsByte }
    ensures u16 { IsPrefixFree IsU16 }
    ensures u32 { IsPrefixFree IsU32 }
    ensures u64 { IsPrefixFree IsU64 }
    ensures u16_le { IsPrefixFree IsU16Le }
    ensures u32_le { IsPrefixFree IsU32Le }
    ensures u64_le { IsPrefixFree IsU64Le }
    ensures u64_desc { IsPrefixFree IsU64Desc }
    ensures i64 { IsPrefixFree IsI64 }
    ensures i64_desc { IsPrefixFree IsI64Desc }
    ensures i32_le { IsPrefixFree IsI32Le }
    ensures i64_le { IsPrefixFree IsI64Le }
    ensures var_u64 { IsPrefixFree IsVarU64 }
    ensures var_i64 { IsPrefixFree IsVarI64 }
{}
