//! The laws of payloads, each the contract of a function that does nothing. A caller who needs one calls it.
ghost use Rattle.blocks.specs.Encoding.{AnEncodingIsOfOneList, AnEncodingReadsBack, WhatDecodesIsAnEncoding};
ghost use Rattle.blocks.specs.Laws.{APayloadIsOfOneList, APayloadReadsBack, WhatReadsIsAPayload};

/// The payload of a column's values reads as just these values.
pub fn a_payload_reads_back()
    ensures { APayloadReadsBack }
{}

/// Bytes that read as values are the payload of these values.
pub fn what_reads_is_a_payload()
    ensures { WhatReadsIsAPayload }
{}

/// Bytes are the payload of one list of so many values at most.
pub fn a_payload_is_of_one_list()
    ensures { APayloadIsOfOneList }
{}

/// The payload of a column's values in format 2 reads as just these values.
pub fn an_encoding_reads_back()
    ensures { AnEncodingReadsBack }
{}

/// Bytes that read as values in format 2 are their payload.
pub fn what_decodes_is_an_encoding()
    ensures { WhatDecodesIsAnEncoding }
{}

/// Bytes are the payload of one list of so many values at most in format 2.
pub fn an_encoding_is_of_one_list()
    ensures { AnEncodingIsOfOneList }
{}
